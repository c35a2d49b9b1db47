//! A begin on the state of a server, and what a session notes of its answer.
ghost use Rattle.std.specs.Prelude.{◌≡◌, ◌+◌, ◌<◌, ◌≤◌, ◌++◌, max, true, false, IfOk, OnErr, length, vec_capacity, vec_len};
ghost use Rattle.lynx_keep.specs.HeldBack.{held_terms};
ghost use Rattle.lynx_server.specs.Serving.{Begins, Lasts, begins_here};
ghost use Rattle.lynx_server.specs.History.{IsLawfulHistory};
ghost use Rattle.lynx_codec.specs.Ranges.{IsAnswerInRange};
ghost use Rattle.lynx_cluster.specs.Answers.{FitsRequest, IsAbove, IsLeft, IsUnserved};
ghost use Rattle.lynx_cluster.specs.Sessions.{is_noted, told_by};
ghost use Rattle.lynx_entry.specs.Answers.{HasFewResults};
ghost use Rattle.lynx_weave.specs.Told.{stamp_answered};

use lynx_entry::{Answer, AnswerRoom, Request};
use lynx_keep::BatchKeeper;
use lynx_names::{Memory, ServerId, Stamp, TryCopy, learn};
use lynx_resting::Resting;
use lynx_weave::ToldItem;
use std::alloc::Global;

/// The answer is noted by the session that is told it.
fn is_noted(answer: &Answer) -> bool
    ensures { result ≡ is_noted answer.now }
{
    matches!(
        answer,
        Answer::Begun { .. } | Answer::Refused { .. } | Answer::Clash | Answer::Full
    )
}

/// The later of two stamps.
pub(crate) fn later(left: Stamp, right: Stamp) -> Stamp
    ensures { result ≡ max left right }
{
    if left.time() < right.time() {
        right
    } else {
        left
    }
}

/// The stamp that the answer tells, or 0.
pub(crate) fn stamp_of(answer: &Answer) -> Stamp
    ensures { result ≡ stamp_answered answer.now }
{
    match answer {
        Answer::Begun { stamp, .. } | Answer::Refused { stamp, .. } => *stamp,
        _ => Stamp::zero(),
    }
}

/// Makes a copy of the request, then begins it on the state of a server, by a session that had seen
/// that stamp.
fn try_begin_at<K: BatchKeeper>(
    alloc: Global,
    state: &mut Resting<K>,
    request: &Request,
    seen: Stamp,
) -> Result<Answer, Memory>
    ensures stopped { state.old.here.is_stopped ≡ true → IfOk result (λ answer.
        (answer ≡ Answer.Stopped) × (state.new ≡ state.old)) }
    ensures begins { state.old.here.is_stopped ≡ false → IfOk result (λ answer.
        Begins (held_terms K.terms) state.old.here request.now seen answer state.new.here) }
    ensures lasts { state.old.here.is_stopped ≡ false
        → IfOk result (λ answer. Lasts (held_terms K.terms) state.old.here
        (begins_here state.old.here request.now seen).added state.new.here) }
    ensures lawful { IsLawfulHistory state.old.here.set state.old.here.server
        state.old.here.history }
    ensures settled { state.new.settled ≡ state.old.settled }
    ensures same { OnErr result (state.new ≡ state.old) }
{
    // By its type the history is lawful.
    learn(state.reached());
    let copy = request.copy(alloc)?;
    Ok(state.begin(alloc, copy, seen))
}

/// One begin on the state of a server, by a session that had seen that stamp. Want of memory
/// changes nothing.
pub(crate) fn begin_at<K: BatchKeeper>(
    alloc: Global,
    state: &mut Resting<K>,
    request: &Request,
    seen: Stamp,
) -> Answer
    ensures stopped { state.old.here.is_stopped ≡ true → (state.new ≡ state.old)
        × IsUnserved result }
    ensures begins { state.old.here.is_stopped ≡ false → IsLeft (held_terms K.terms)
        state.old.here request.now seen result state.new.here }
    ensures settled { state.new.settled ≡ state.old.settled }
    ensures above { IsAbove seen result }
    ensures fits { FitsRequest state.old.here.set state.old.here.server request.now result }
    ensures range { IsAnswerInRange result }
{
    match try_begin_at(alloc, state, request, seen) {
        Ok(answer) => answer,
        Err(Memory) => Answer::Memory,
    }
}

/// Notes that server's answer to a request among what a session was told, which has room for it.
pub(crate) fn note(
    told: &mut Vec<ToldItem>,
    greatest: &mut Stamp,
    server: ServerId,
    request: Request,
    answer: &Answer,
    room: AnswerRoom,
)
    requires room { vec_len told.old < vec_capacity told.old }
    requires few { HasFewResults answer.now }
    ensures told { told.new.items ≡ told.old.items ++ told_by server request answer.now }
    ensures capacity { vec_capacity told.new ≡ vec_capacity told.old }
    ensures len { vec_len told.new ≤ vec_len told.old + 1 }
    ensures greatest { greatest.new ≡ max greatest.old (stamp_answered answer.now) }
{
    *greatest = later(*greatest, stamp_of(answer));
    if is_noted(answer) {
        told.push_reserved(ToldItem::Answered {
            server,
            request,
            answer: room.copy_of(answer),
        });
    }
}
