//! Gates: what is told of each step, on both sides of its lock, and of what came of it.
use lynx_entry::{Answer, Delivered};
use lynx_keep::Cause;
use lynx_names::{ProgramId, ServerId};
use std::time::Instant;

/// What a step on the state behind a server's lock does there.
#[derive(Clone, Copy, Debug, PartialEq, Eq)]
pub enum StepKind {
    /// A begin of a session.
    Begin,
    /// A delivery of a message, or a wake while messages are held.
    Deliver,
}

/// What a cluster tells of its steps, in whatever thread makes them. A test can so make one step
/// wait for another.
pub trait Gate {
    /// A step is about to be made. It is called with that server's lock taken.
    fn enter(&self, server: ServerId, step: StepKind);

    /// The step was made. It is called after that server's lock was given back.
    fn leave(&self, server: ServerId, step: StepKind);

    /// What time it is, for a gate that times steps. It is asked before a step.
    fn now(&self) -> Option<Instant> {
        None
    }

    /// A begin of that program was answered so, and what it may be read of is settled. Its step
    /// began at that time.
    fn answered(
        &self,
        _server: ServerId,
        _program: ProgramId,
        _answer: &Answer,
        _since: Option<Instant>,
    ) {}

    /// A step was answered that its server has stopped, whose store failed for that cause if it
    /// knows it.
    fn stopped(&self, _server: ServerId, _cause: Option<Cause>) {}

    /// A message was delivered, or a held one woken, and came to that, which is settled. Its step
    /// began at that time. It is called with that server's lock taken.
    fn delivered(&self, _server: ServerId, _delivered: &Delivered, _since: Option<Instant>) {}
}

/// Lets every step pass, and does nothing.
#[derive(Clone, Copy, Debug)]
pub struct OpenGate;

impl Gate for OpenGate {
    fn enter(&self, _server: ServerId, _step: StepKind) {}

    fn leave(&self, _server: ServerId, _step: StepKind) {}
}
