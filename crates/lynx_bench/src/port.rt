//! A load at the port of a service: begins by many connections, and how long they take.
use crate::caller::{Caller, micros_of};
use crate::fault::Fault;
use lynx_cluster::Host;
use std::alloc::Global;
use std::io::{Read, Write};
use std::net::{Ipv4Addr, Net, TcpListener, TcpStream};
use std::time::{Duration, Instant, SystemTime, UNIX_EPOCH};
use std::{fmt, thread};

/// Begins of one hop at a service that serves the set for so many servers, which `set` prints. Each
/// begins a chain that was never begun before, also where a load came before at the same service.
#[derive(Clone, Copy)]
pub struct PortLoad {
    /// The service's, at this machine.
    pub port: u16,
    /// Connections, 1 at least, with a thread each. They begin at the servers in turn.
    pub connections: u8,
    /// Begins of each connection that are sent and not answered, 1 at least.
    pub in_flight: u16,
    /// For how long further ones are sent.
    pub seconds: u64,
    /// 1 to 16.
    pub servers: u8,
}

/// What came of such a load.
#[derive(Clone, Copy)]
pub struct PortMeasured {
    /// Begins, all of which were answered as begun.
    begins: usize,
    /// From the first begin until the last answer, by the monotonic clock.
    time: Duration,
    /// As many of a thousand begins were answered within so many microseconds: 500, ..
    half: u64,
    /// .. 990, ..
    most: u64,
    /// .. and 999.
    nearly_all: u64,
}

impl fmt::Display for PortMeasured {
    fn fmt<W: fmt::Write>(&self, f: &mut fmt::Formatter<W>) -> fmt::Result {
        write!(
            f,
            "begins {} in {} ms: {} a second, p50 {} us, p99 {} us, p99.9 {} us",
            self.begins,
            self.time.as_millis(),
            self.begins as u128 * 1_000_000 / self.time.as_micros().max(1),
            self.half,
            self.most,
            self.nearly_all
        )
    }
}

/// Of ascending times the one within which so many of a thousand are.
fn within(times: &[u64], thousandths: usize) -> u64 {
    let place = times.len().saturating_mul(thousandths) / 1_000;
    let last = times.len().saturating_sub(1);
    times.get(place.min(last)).copied().unwrap_or(0)
}

/// A number that no client of an earlier load had: two loads don't begin within one microsecond.
fn first_client<R: Host>(rt: &R) -> Result<u64, Fault> {
    match SystemTime::now(rt)?.duration_since(UNIX_EPOCH) {
        Ok(since) => Ok(micros_of(since).wrapping_mul(256)),
        Err(_) => Err(Fault::Clock),
    }
}

/// The connections of a load.
fn connect<R: Host + Net<Listener = TcpListener, Stream = TcpStream>>(
    rt: &R,
    alloc: Global,
    load: PortLoad,
) -> Result<Vec<Caller<TcpStream>>, Fault> {
    let first = first_client(rt)?;
    let mut callers = Vec::new(alloc);
    for connection in 0..load.connections {
        let Ok(stream) = TcpStream::connect(rt, (Ipv4Addr::LOCALHOST, load.port)) else {
            return Err(Fault::Connect);
        };
        let client = first.wrapping_add(u64::from(connection));
        let server = connection.checked_rem(load.servers).unwrap_or(0);
        callers.push(Caller::new(alloc, stream, client, server, load.servers))?;
    }
    Ok(callers)
}

/// Has all connections begin chains, each in a thread of its own. When all were answered.
fn call_all<R: Host, S: Read + Write + Send + Drop>(
    rt: &R,
    alloc: Global,
    load: PortLoad,
    callers: &mut [Caller<S>],
    first: Instant,
) -> Result<Instant, Fault> {
    let end = first
        .checked_add(Duration::from_secs(load.seconds))
        .ok_or(Fault::Clock)?;
    let threads = callers.len().max(1);
    thread::for_each_mut(
        rt,
        callers,
        threads,
        &|_, caller: &mut Caller<S>| {
            caller.call(rt, alloc, load.in_flight, end);
        },
    );
    Ok(Instant::now(rt)?)
}

/// The microseconds of all begins, ascending.
fn times_of<S: Read + Write + Drop>(
    alloc: Global,
    callers: Vec<Caller<S>>,
) -> Result<Vec<u64>, Fault> {
    let mut times = Vec::new(alloc);
    for caller in callers {
        times.extend_from_slice(caller.into_times()?.as_slice())?;
    }
    times.sort_unstable();
    Ok(times)
}

/// Has all connections begin chains, and measures how long that takes.
fn call_timed<R: Host, S: Read + Write + Send + Drop>(
    rt: &R,
    alloc: Global,
    load: PortLoad,
    mut callers: Vec<Caller<S>>,
) -> Result<PortMeasured, Fault> {
    let first = Instant::now(rt)?;
    let end = call_all(rt, alloc, load, callers.as_mut_slice(), first)?;
    let times = times_of(alloc, callers)?;
    let times = times.as_slice();
    Ok(PortMeasured {
        begins: times.len(),
        time: end.duration_since(first),
        half: within(times, 500),
        most: within(times, 990),
        nearly_all: within(times, 999),
    })
}

/// Begins chains at a service, and measures how long that takes.
pub fn call_service<R: Host + Net<Listener = TcpListener, Stream = TcpStream>>(
    rt: &R,
    alloc: Global,
    load: PortLoad,
) -> Result<PortMeasured, Fault> {
    let callers = connect(rt, alloc, load)?;
    Ok(call_timed(rt, alloc, load, callers)?)
}
