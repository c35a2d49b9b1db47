//! Reading what a client sends and writing what it is answered, with patience that ends.
ghost use Rattle.std.specs.Prelude.{◌≡◌};

use crate::end_request::EndRequest;
use crate::limits::{
    MAX_IDLE_SECONDS, MAX_SHUT_SECONDS, MAX_WATCH_SECONDS, MAX_WRITE_SECONDS, TICK_MILLIS,
};
use std::io::{self, ErrorKind, Read, Write};
use std::net::TcpStream;
use std::sync::Wait;
use std::sync::atomic::{AtomicU64, Ordering};
use std::time::{Clock, Duration, Instant};

/// Ticks for which a client may be silent.
const IDLE_TICKS: u64 = MAX_IDLE_SECONDS * 1000 / TICK_MILLIS;

/// The same, once the service is to end.
const SHUT_TICKS: u64 = MAX_SHUT_SECONDS * 1000 / TICK_MILLIS;

/// Ticks for which a connection may watch.
const WATCH_TICKS: u64 = MAX_WATCH_SECONDS * 1000 / TICK_MILLIS;

/// Ticks for which a client may take nothing.
const WRITE_TICKS: u64 = MAX_WRITE_SECONDS * 1000 / TICK_MILLIS;

/// Whether nothing came, or went, for a tick.
fn is_tick(error: &io::Error) -> bool {
    matches!(error.kind(), ErrorKind::WouldBlock | ErrorKind::TimedOut)
}

/// What a client sends over a stream whose reads end after [`TICK_MILLIS`]. Where the client is
/// silent for too long, or the service ended long enough ago, its input has ended.
#[derive(Drop)]
pub(crate) struct PatientReader<'a, R, I> {
    rt: &'a R,
    stream: I,
    end_request: &'a EndRequest,
    is_over: bool,
}

impl<'a, R, I> PatientReader<'a, R, I> {
    /// Of this stream, in a service with that end request.
    pub(crate) fn new(
        rt: &'a R,
        stream: I,
        end_request: &'a EndRequest,
    ) -> PatientReader<'a, R, I> {
        PatientReader {
            rt,
            stream,
            end_request,
            is_over: false,
        }
    }

    /// Whether its input ended by what it didn't send, and not by itself.
    pub(crate) fn is_over(&self) -> bool {
        self.is_over
    }
}

impl<R: Wait + Clock, I: Read> Read for PatientReader<'_, R, I> {
    fn read(&mut self, buf: &mut [u8]) -> io::Result<usize> {
        for tick in 0..IDLE_TICKS {
            if self.end_request.is_over(self.rt) {
                break;
            }
            match self.stream.read(buf) {
                Err(error) if is_tick(&error) => {
                    if tick >= SHUT_TICKS && self.end_request.is_asked() {
                        break;
                    }
                }
                done => return done,
            }
        }
        self.is_over = true;
        Ok(0)
    }
}

/// What is read of a connection that watches, over a stream whose reads end after [`TICK_MILLIS`].
/// Once its time is over, or the service is to end, its input has ended.
#[derive(Drop)]
pub(crate) struct BriefReader<'a, R> {
    rt: &'a R,
    stream: &'a TcpStream,
    end_request: &'a EndRequest,
    since: Option<Instant>,
    /// For how long it is read.
    most: Duration,
}

impl<'a, R: Clock> BriefReader<'a, R> {
    /// Of this stream, in a service with that end request, for so long from now on.
    pub(crate) fn new(
        rt: &'a R,
        stream: &'a TcpStream,
        end_request: &'a EndRequest,
        most: Duration,
    ) -> BriefReader<'a, R> {
        BriefReader {
            rt,
            stream,
            end_request,
            since: Instant::now(rt).ok(),
            most,
        }
    }

    /// Whether its time is over. So it is where no clock can tell.
    fn is_over(&self) -> bool {
        let Some(since) = self.since else {
            return true;
        };
        match since.elapsed(self.rt) {
            Ok(elapsed) => elapsed >= self.most,
            Err(_) => true,
        }
    }
}

impl<R: Clock> Read for BriefReader<'_, R> {
    fn read(&mut self, buf: &mut [u8]) -> io::Result<usize> {
        for _ in 0..WATCH_TICKS {
            if self.end_request.is_asked() || self.is_over() {
                break;
            }
            let mut stream = self.stream;
            match stream.read(buf) {
                Err(error) if is_tick(&error) => {}
                done => return done,
            }
        }
        Ok(0)
    }
}

/// What a client is sent over a stream whose writes end after [`TICK_MILLIS`]. Where bytes that it
/// is to take don't go for too long, or the service ended long enough ago, no more can be written.
#[derive(Drop)]
pub(crate) struct PatientWriter<'a, R, W> {
    rt: &'a R,
    stream: W,
    end_request: &'a EndRequest,
    /// Bytes that went, of all who write.
    told: &'a AtomicU64,
    /// When the first byte didn't go, where some still don't.
    since: Option<Instant>,
    /// For how long bytes may not go.
    most: Duration,
}

impl<'a, R: Wait + Clock, W: Write> PatientWriter<'a, R, W> {
    /// Of this stream, in a service with that end request. Bytes may not go for so long at most.
    pub(crate) fn new(
        rt: &'a R,
        stream: W,
        end_request: &'a EndRequest,
        told: &'a AtomicU64,
        most: Duration,
    ) -> PatientWriter<'a, R, W>
        ensures { result.stream ≡ stream }
    {
        PatientWriter {
            rt,
            stream,
            end_request,
            told,
            since: None,
            most,
        }
    }

    /// The stream, out of it.
    pub(crate) fn into_stream(self) -> W
        ensures { result ≡ self.entry.stream }
    {
        self.stream
    }

    /// Notes whether all bytes of a write went.
    fn note(&mut self, all_went: bool)
        ensures { self.new.stream ≡ self.old.stream }
    {
        if all_went {
            self.since = None;
        } else if self.since.is_none() {
            self.since = Instant::now(self.rt).ok();
        }
    }

    /// Whether bytes didn't go for too long.
    fn is_over(&self) -> bool {
        match self.since {
            Some(since) => {
                let is_long = match since.elapsed(self.rt) {
                    Ok(elapsed) => elapsed >= self.most,
                    Err(_) => true,
                };
                is_long || self.end_request.is_over(self.rt)
            }
            None => false,
        }
    }
}

impl<R: Wait + Clock, W: Write> Write for PatientWriter<'_, R, W> {
    ghost contents = { λ writer. W.contents writer.stream };

    fn write(&mut self, buf: &[u8]) -> io::Result<usize> {
        for _ in 0..=WRITE_TICKS {
            if self.is_over() {
                break;
            }
            match self.stream.write(buf) {
                Ok(count) => {
                    self.told.fetch_add(count as u64, Ordering::SeqCst);
                    self.note(count >= buf.len());
                    return Ok(count);
                }
                Err(error) if is_tick(&error) => self.note(false),
                Err(error) => return Err(error),
            }
        }
        Err(io::Error::from(ErrorKind::TimedOut))
    }

    fn flush(&mut self) -> io::Result<()> {
        self.stream.flush()
    }
}
