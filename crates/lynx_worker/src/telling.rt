//! Acknowledgements: the senders of messages are told that their hops were done.
ghost use Rattle.std.specs.Prelude.{◌≡◌};
ghost use Rattle.lynx_worker.specs.Telling.{AddsSome, Tells};

use crate::route::offer;
use crate::steps::{Acknowledgement, Steps};
use lynx_link::{Ends, Parcel};
use std::collections::VecDeque;

/// Acknowledgements that wait for room in their rings, at most.
const MOST_UNTOLD: usize = 4_096;

/// Adds acknowledgements to those that wait. Those for which there is no room are let go: their
/// messages come again.
pub(crate) fn add_acknowledgements(
    untold: &mut VecDeque<Acknowledgement>,
    acknowledgements: &[Acknowledgement],
)
    ensures { AddsSome acknowledgements.now untold.old.items untold.new.items }
{
    for acknowledgement in acknowledgements {
        if untold.len() >= MOST_UNTOLD || untold.push_back(*acknowledgement).is_err() {
            return;
        }
    }
}

/// Tells the senders of these hops that they were done, and sends nothing else. An acknowledgement
/// whose ring is full goes on to wait.
pub(crate) fn tell<S: Steps>(steps: &S, ends: &mut Ends, untold: &mut VecDeque<Acknowledgement>)
    ensures { Tells untold.old.items ends.old untold.new.items ends.new }
{
    for _ in 0..untold.len() {
        let Some(acknowledgement) = untold.pop_front() else {
            unreachable!()
        };
        let parcel = Parcel::Done {
            chain: acknowledgement.chain,
            hop: acknowledgement.hop,
        };
        if offer(ends, acknowledgement.to, parcel) {
            steps.signal(acknowledgement.to);
        } else {
            untold.push_back_reserved(acknowledgement);
        }
    }
}
