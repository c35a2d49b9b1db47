//! A gate that holds one server back.
use lynx_cluster::{Gate, StepKind};
use lynx_names::{Memory, ServerId};
use std::alloc::Global;
use std::sync::Arc;
use std::sync::atomic::{AtomicBool, Ordering};
use std::thread;
use std::time::{Clock, Duration};

/// As many turns are waited at most, of a millisecond each.
const MOST_TURNS: u32 = 10_000;

/// Lets no delivery at server 1 go on before it is open.
#[derive(Drop)]
pub struct Barrier<R: Clock> {
    rt: R,
    is_open: Arc<AtomicBool>,
}

impl<R: Clock> Gate for Barrier<R> {
    fn enter(&self, server: ServerId, step: StepKind) {
        if step != StepKind::Deliver || server.index() != 1 {
            return;
        }
        for _ in 0..MOST_TURNS {
            if self.is_open.load(Ordering::SeqCst) {
                return;
            }
            thread::sleep(&self.rt, Duration::from_millis(1));
        }
    }

    fn leave(&self, _server: ServerId, _step: StepKind) {}
}

/// A barrier that isn't open, and its mark.
pub fn make_barrier<R: Clock + Drop>(
    rt: R,
    alloc: Global,
) -> Result<(Barrier<R>, Arc<AtomicBool>), Memory> {
    let is_open = Arc::new(alloc, AtomicBool::new(false))?;
    let theirs = Arc::try_clone(&is_open)?;
    let gate = Barrier {
        rt,
        is_open: theirs,
    };
    Ok((gate, is_open))
}
