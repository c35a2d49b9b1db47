//! Set texts: which fronts of one are sets, and how sets are printed as they are read. Their faults
//! and limits are shown by the cases under tests/cases.
use lynx_fixtures::made::boxed;
use lynx_fixtures::texts::{
    CALC, CROSSING, EMPTY_SET, LATE_AND_MARK, ONE_ORIGIN_JOINS, ONE_ORIGIN_ONLY, ONE_ORIGIN_SETS,
    PAY_AND_NOTE, PAYMENT, PUT, TRIP, set_of,
};
use lynx_names::limits::MAX_TEXT_BYTES;
use lynx_names::{Memory, TryCopy};
use lynx_set::ChainSet;
use lynx_text::{parse, print};
use std::alloc::Global;

/// Two servers and one table, on five lines.
const HEAD: &str = "lynx 1\nservers 2\ntable t\nshard 0 99 0\nshard 100 18446744073709551615 1\n";

/// Whether the front of a payment ends with the servers, the table or a program.
fn ends_a_part(front: &[u8]) -> bool {
    let mut lines: usize = 0;
    for byte in front {
        if *byte == b'\n' {
            lines = lines.saturating_add(1);
        }
    }
    front.ends_with(b"\n".as_slice()) && (lines == 2 || lines == 5 || lines == 9)
}

#[test]
fn fronts_of_a_set_are_sets_after_whole_parts(rt: HostRuntime) {
    let text = PAYMENT.as_bytes();
    for length in 0..text.len() {
        let front = &text[..length];
        assert!(rt;
            parse(rt.alloc(), front).is_ok() == ends_a_part(front),
            "{length}"
        );
    }
}

/// A program that stays at its second server.
const DOUBLE: &str =
    "lynx 1\nservers 2\ntable t\nshard 0 9 0\nshard 10 18446744073709551615 1\nprogram double\nhop 0\nadd t 0 1\nhop 1\nadd t 10 1\nhop 1\nadd t 11 1\nend\n";

const SETS: &[&str] = &[
    CROSSING,
    EMPTY_SET,
    LATE_AND_MARK,
    ONE_ORIGIN_JOINS,
    ONE_ORIGIN_ONLY,
    ONE_ORIGIN_SETS,
    PAY_AND_NOTE,
    TRIP,
    PAYMENT,
    CALC,
    PUT,
    DOUBLE,
];

/// A copy of the text's set.
fn copy_of(alloc: Global, text: &str) -> Result<Box<ChainSet>, Memory> {
    let set = set_of(alloc, text)?;
    boxed(alloc, set.copy(alloc))
}

/// Whether the copy of the text's set is printed as the text is.
fn copy_is_printed(alloc: Global, text: &str) -> Result<bool, Memory> {
    let set = copy_of(alloc, text)?;
    let printed = print(alloc, &set)?;
    Ok(printed.as_slice() == text.as_bytes())
}

#[test]
fn sets_are_printed_as_they_are_read(rt: HostRuntime) {
    for &text in SETS {
        assert!(rt; copy_is_printed(rt.alloc(), text) == Ok(true), "{text}");
    }
}

/// A hop with as many actions as one may have.
#[rattlefmt::skip]
const FULL_HOP: &str = "hop 0\nadd t 0 1\nadd t 0 1\nadd t 0 1\nadd t 0 1\nadd t 0 1\nadd t 0 1\nadd t 0 1\nadd t 0 1\nadd t 0 1\nadd t 0 1\nadd t 0 1\nadd t 0 1\nadd t 0 1\nadd t 0 1\nadd t 0 1\nadd t 0 1\n";

/// The last hop of the longest text, and the end of its program.
#[rattlefmt::skip]
const LAST_HOP: &str = "hop 0\nadd t 0 1\nadd t 0 1\nadd t 0 1\nadd t 0 1\nadd t 0 1\nadd t 0 1\nadd t 0 1\nadd t 0 1\nadd t 0 1\nadd t 0 1234\nend\n";

fn push_hops(text: &mut String, count: usize) -> Result<(), Memory> {
    for _ in 0..count {
        text.push_str(FULL_HOP)?;
    }
    Ok(())
}

fn push_programs(text: &mut String) -> Result<(), Memory> {
    for i in 10..58 {
        write!(text, "program p{i}\n")?;
        push_hops(text, 8)?;
        text.push_str("end\n")?;
    }
    Ok(())
}

fn push_last_program(text: &mut String) -> Result<(), Memory> {
    text.push_str("program a\n")?;
    push_hops(text, 5)?;
    text.push_str(LAST_HOP)?;
    Ok(())
}

/// A set text of just as many bytes as one may have.
fn longest_text(alloc: Global) -> Result<String, Memory> {
    let mut text = String::from_str(alloc, HEAD)?;
    push_programs(&mut text)?;
    push_last_program(&mut text)?;
    Ok(text)
}

/// Whether it has just as many bytes as a text may have, and is printed again.
fn longest_is_printed(alloc: Global) -> Result<bool, Memory> {
    let text = longest_text(alloc)?;
    Ok(text.len() == MAX_TEXT_BYTES && copy_is_printed(alloc, text.as_str())?)
}

#[test]
fn the_longest_text_is_a_set(rt: HostRuntime) {
    assert!(rt; longest_is_printed(rt.alloc()) == Ok(true));
}
