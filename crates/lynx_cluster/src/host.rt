use std::sync::Wait;
use std::thread::Threads;
use std::time::Clock;

/// What a cluster needs of the runtime, with clients in threads of their own beside it. It is a
/// name for these bounds: whatever has them all is a host.
pub trait Host: Threads + Wait + Clock + Copy + Send + Sync + 'static {}

impl<R: Threads + Wait + Clock + Copy + Send + Sync + 'static> Host for R {}
