//! How a worker rests that has nothing to do.
use crate::steps::Steps;
use std::sync::Wait;
use std::thread;
use std::time::{Clock, Duration};

/// Turns without work after which a worker no longer just gives its processor away, but rests for a
/// millisecond where it awaits an acknowledgement, ..
const YIELDS: u32 = 32;

/// .. after which it rests for four, ..
const SHORT_RESTS: u32 = 128;

/// .. and after which it rests for sixteen.
const MIDDLE_RESTS: u32 = 256;

/// Milliseconds for which a worker rests, at most, that awaits nothing.
const LONG_MILLIS: u64 = 250;

/// Microseconds for which a worker rests after a pass in which it did something: what comes
/// meanwhile is then served, and told of, together.
const PAUSE_MICROS: u64 = 50;

/// Rests after a pass with work.
pub(crate) fn pause<R: Clock>(rt: &R) {
    thread::sleep(rt, Duration::from_micros(PAUSE_MICROS));
}

/// The milliseconds for which a worker rests after so many turns without work. What it sent and
/// heard nothing of it may have to send again.
fn millis_of(idle: u32, awaits: bool) -> u64 {
    if !awaits {
        LONG_MILLIS
    } else if idle < SHORT_RESTS {
        1
    } else if idle < MIDDLE_RESTS {
        4
    } else {
        16
    }
}

/// Rests after so many turns without work, until it is signalled: a chain began that goes on
/// elsewhere, or a parcel came. So a cluster that has nothing to do takes next to no time, and what
/// comes is served at once.
pub(crate) fn rest<R: Wait + Clock, S: Steps>(rt: &R, steps: &S, idle: u32, awaits: bool) {
    if idle < YIELDS {
        thread::yield_now();
    } else {
        steps.rest(rt, Duration::from_millis(millis_of(idle, awaits)));
    }
}
