//! Calls on texts and sets, which stay as they are.
use crate::tried::{Called, done, of_result};
use lynx_check::check;
use lynx_draw::{Extent, draw};
use lynx_fixtures::made::{boxed, program};
use lynx_fixtures::rows::PAYMENT;
use lynx_fixtures::texts::CROSSING;
use lynx_foot::footprint;
use lynx_graph::conflict_edges;
use lynx_lines::parse_script;
use lynx_names::{Memory, TryCopy};
use lynx_set::{ChainSet, upgrade_set};
use lynx_text::{FaultKind, TextFault, parse, print};
use std::alloc::Global;

/// A call on a text or a set.
#[derive(Clone, Copy)]
pub enum TextCall {
    Parse,
    Print,
    ParseScript,
    Copy,
    Upgrade,
    Footprint,
    Edges,
    Check,
    Draw,
}

/// What was answered by a reader of texts.
fn read_so<T: Drop>(answer: Result<T, TextFault>) -> Called {
    match answer {
        Ok(made) => done(made),
        Err(fault) if fault.kind == FaultKind::Memory => Called::Refused,
        Err(_) => Called::Other,
    }
}

/// The picture of a set.
fn picture(alloc: Global, set: &ChainSet) -> Result<Vec<u8>, Memory> {
    let verdict = boxed(alloc, check(alloc, set))?;
    draw(alloc, set, &verdict, Extent::All)
}

/// Makes it once.
pub fn make(alloc: Global, call: TextCall, set: &ChainSet) -> Result<Called, Memory> {
    Ok(match call {
        TextCall::Parse => read_so(parse(alloc, PAYMENT.set.as_bytes())),
        TextCall::Print => of_result(print(alloc, set)),
        TextCall::ParseScript => read_so(parse_script(alloc, set, PAYMENT.script.as_bytes())),
        TextCall::Copy => of_result(set.copy(alloc)),
        TextCall::Upgrade => of_result(upgrade_set(alloc, set)),
        TextCall::Footprint => of_result(footprint(alloc, set, program(0)?, 0)),
        TextCall::Edges => of_result(conflict_edges(alloc, set)),
        TextCall::Check => of_result(check(alloc, set)),
        TextCall::Draw => of_result(picture(alloc, set)),
    })
}

/// The text of the set on which it is made: pictures and verdicts are of one that offends.
pub fn text_for(call: TextCall) -> &'static str {
    match call {
        TextCall::Edges | TextCall::Check | TextCall::Draw => CROSSING,
        _ => PAYMENT.set,
    }
}
