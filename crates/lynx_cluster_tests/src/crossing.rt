//! A gate that lets two threads meet inside two servers.
use lynx_cluster::{Gate, StepKind};
use lynx_names::{Memory, ServerId};
use std::alloc::Global;
use std::sync::Arc;
use std::sync::atomic::{AtomicBool, Ordering};
use std::thread;
use std::time::{Clock, Duration};

/// As many turns are waited at most, of a millisecond each.
const MOST_TURNS: u32 = 10_000;

/// What was seen at the gate, by any thread.
#[derive(Drop)]
pub struct Marks {
    /// Some step entered server 0.
    entered: AtomicBool,
    /// Some step left server 1.
    left: AtomicBool,
    /// No step came to that server yet.
    first: [AtomicBool; 2],
    /// Some wait came to its last turn.
    failed: AtomicBool,
}

impl Marks {
    fn new() -> Marks {
        Marks {
            entered: AtomicBool::new(false),
            left: AtomicBool::new(false),
            first: [AtomicBool::new(true), AtomicBool::new(true)],
            failed: AtomicBool::new(false),
        }
    }

    /// Both servers had a step inside at once, and none waited in vain.
    pub fn have_met(&self) -> bool {
        self.entered.load(Ordering::SeqCst)
            && self.left.load(Ordering::SeqCst)
            && !self.failed.load(Ordering::SeqCst)
    }
}

/// Lets the first such step at server 1 go on once one is inside server 0, and the first at server
/// 0 once one left server 1. So both are inside at once.
#[derive(Drop)]
pub struct Crossing<R: Clock> {
    rt: R,
    step: StepKind,
    marks: Arc<Marks>,
}

/// A gate for that step, and its marks.
pub fn make_crossing<R: Clock + Drop>(
    rt: R,
    alloc: Global,
    step: StepKind,
) -> Result<(Crossing<R>, Arc<Marks>), Memory> {
    let marks = Arc::new(alloc, Marks::new())?;
    let theirs = Arc::try_clone(&marks)?;
    let gate = Crossing {
        rt,
        step,
        marks: theirs,
    };
    Ok((gate, marks))
}

impl<R: Clock> Crossing<R> {
    fn wait_for(&self, mark: &AtomicBool) {
        for _ in 0..MOST_TURNS {
            if mark.load(Ordering::SeqCst) {
                return;
            }
            thread::sleep(&self.rt, Duration::from_millis(1));
        }
        self.marks.failed.store(true, Ordering::SeqCst);
    }
}

impl<R: Clock> Gate for Crossing<R> {
    fn enter(&self, server: ServerId, step: StepKind) {
        let place = server.index();
        if step != self.step || place >= 2 {
            return;
        }
        let is_first = self.marks.first[place].swap(false, Ordering::SeqCst);
        if place == 0 {
            self.marks.entered.store(true, Ordering::SeqCst);
            if is_first {
                self.wait_for(&self.marks.left);
            }
        } else if is_first {
            self.wait_for(&self.marks.entered);
        }
    }

    fn leave(&self, server: ServerId, step: StepKind) {
        if step == self.step && server.index() == 1 {
            self.marks.left.store(true, Ordering::SeqCst);
        }
    }
}
