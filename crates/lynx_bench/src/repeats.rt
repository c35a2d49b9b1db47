//! A gate that counts what comes twice.
use lynx_cluster::{Gate, StepKind};
use lynx_entry::Delivered;
use lynx_names::{Memory, ServerId};
use std::alloc::Global;
use std::sync::Arc;
use std::sync::atomic::{AtomicU64, Ordering};
use std::time::Instant;

/// Lets every step pass, and counts the messages whose hop had been done already when they came.
#[derive(Drop)]
pub(crate) struct Repeats {
    count: Arc<AtomicU64>,
}

/// A gate that has counted nothing, and its count.
pub(crate) fn counting_gate(alloc: Global) -> Result<(Repeats, Arc<AtomicU64>), Memory> {
    let count = Arc::new(alloc, AtomicU64::new(0))?;
    let theirs = Arc::try_clone(&count)?;
    Ok((Repeats { count: theirs }, count))
}

impl Gate for Repeats {
    fn enter(&self, _server: ServerId, _step: StepKind) {}

    fn leave(&self, _server: ServerId, _step: StepKind) {}

    fn delivered(&self, _server: ServerId, delivered: &Delivered, _since: Option<Instant>) {
        if matches!(delivered, Delivered::Repeat { .. }) {
            self.count.fetch_add(1, Ordering::SeqCst);
        }
    }
}
