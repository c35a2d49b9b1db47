//! Copies are equal to what they are copies of, with ample memory.
use lynx_entry::{Answer, AnswerRoom};
use lynx_fixtures::made::{answer, boxed, entry, lists};
use lynx_fixtures::parts::{AnswerParts, EntryParts, RefusedParts};
use lynx_fixtures::payments::{ARRIVED, PAID, PAY};
use lynx_names::limits::MAX_ACTIONS;
use lynx_names::{Memory, TryCopy};
use std::alloc::Global;

/// Whether what was made has a copy that is equal to it.
fn is_copied<T: TryCopy + PartialEq + Drop>(
    alloc: Global,
    made: Result<T, Memory>,
) -> Result<bool, Memory> {
    let value = made?;
    let copy = value.copy(alloc)?;
    Ok(copy == value)
}

#[test]
fn a_list_of_lists_is_copied(rt: HostRuntime) {
    let made = lists(rt.alloc(), &[&[7, 0], &[]]);
    assert!(rt; is_copied(rt.alloc(), made) == Ok(true));
}

/// An entry of each kind, which has a request or a message.
const ENTRIES: &[EntryParts] = &[
    EntryParts::Begun(PAID),
    EntryParts::Refused(RefusedParts {
        request: PAY,
        seen: 1,
        need: 3,
        time: 2,
    }),
    EntryParts::Hop(ARRIVED),
];

#[test]
fn entries_are_copied(rt: HostRuntime) {
    for (place, &parts) in ENTRIES.iter().enumerate() {
        let made = entry(rt.alloc(), parts);
        assert!(rt; is_copied(rt.alloc(), made) == Ok(true), "entry {place}");
    }
}

/// Each answer, one with as many results as a hop has.
const ANSWERS: &[AnswerParts] = &[
    AnswerParts::Begun {
        origin: 3,
        index: 5,
        time: 8,
        results: &[1, 2, 3, 4, 5, 6, 7, 8, 9, 10, 11, 12, 13, 14, 15, 16],
        again: true,
    },
    AnswerParts::Begun {
        origin: 0,
        index: 0,
        time: 1,
        results: &[],
        again: false,
    },
    AnswerParts::Refused {
        need: 2,
        time: 9,
        again: true,
    },
    AnswerParts::Clash,
    AnswerParts::UnknownProgram,
    AnswerParts::WrongOrigin,
    AnswerParts::ArgCount,
    AnswerParts::OutsideRange,
    AnswerParts::WrongShard,
    AnswerParts::Full,
    AnswerParts::Busy,
    AnswerParts::Stopped,
    AnswerParts::Memory,
];

/// Whether there is room for a copy of the answer, and the copy is equal.
fn is_noted(alloc: Global, answer: &Answer) -> Result<bool, Memory> {
    match answer {
        Answer::Begun { results, .. } if results.len() > MAX_ACTIONS => Ok(false),
        answer => {
            let room = AnswerRoom::new(alloc)?;
            Ok(room.copy_of(answer) == *answer)
        }
    }
}

#[test]
fn answers_are_copied(rt: HostRuntime) -> Result<(), Memory> {
    for (place, &parts) in ANSWERS.iter().enumerate() {
        assert!(rt;
            is_copied(rt.alloc(), answer(rt.alloc(), parts)) == Ok(true),
            "answer {place}"
        );
        let made = boxed(rt.alloc(), answer(rt.alloc(), parts))?;
        assert!(rt;
            is_noted(rt.alloc(), &made) == Ok(true),
            "room for answer {place}"
        );
    }
    Ok(())
}
