//! The signals by which workers are woken that rest.
use lynx_names::{Memory, ServerId};
use std::alloc::Global;
use std::sync::Wait;
use std::thread::Parker;
use std::time::Duration;

/// A signal for the worker of each server. One that is given while its worker doesn't rest ends its
/// next rest at once, so that none is missed. No clause rests on it: who isn't signalled looks
/// again after a while.
#[derive(Drop)]
pub(crate) struct Signals {
    /// By server.
    signals: Vec<Parker>,
}

impl Signals {
    /// For so many servers.
    pub(crate) fn new(alloc: Global, servers: u8) -> Result<Signals, Memory> {
        let mut signals = Vec::with_capacity(alloc, usize::from(servers))?;
        for _ in 0..servers {
            signals.push(Parker::new())?;
        }
        Ok(Signals { signals })
    }

    /// Signals the worker of that server. It costs next to nothing where the worker doesn't rest.
    pub(crate) fn signal(&self, server: ServerId) {
        if let Some(signal) = self.signals.as_slice().get(server.index()) {
            signal.unpark();
        }
    }

    /// Signals all workers.
    pub(crate) fn signal_all(&self) {
        for signal in self.signals.as_slice() {
            signal.unpark();
        }
    }

    /// Waits until the worker of that server is signalled, so long at most. Only it waits there.
    pub(crate) fn wait<R: Wait>(&self, rt: &R, server: ServerId, most: Duration) {
        if let Some(signal) = self.signals.as_slice().get(server.index()) {
            signal.park_timeout(rt, most);
        }
    }
}
