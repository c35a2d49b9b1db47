//! The programs that can never begin, each with the first action that shows it.

ghost use Rattle.std.specs.Prelude.{◌≡◌, ◌<◌, ◌++◌, OnOk, length};
ghost use Rattle.std.specs.List.{flat_map, range_with_len};
ghost use Rattle.lynx_set.specs.Lookups.{actions_at};
ghost use Rattle.lynx_set.specs.Rules.{IsSet};
ghost use Rattle.lynx_reasons.specs.Never.{action_line, never_line, never_lines, never_text};

use crate::hop_lines::line_of;
use first::{NeverAt, first_never};
use lynx_graph::{Place, program_of};
use lynx_names::{Memory, ProgramId};
use lynx_set::ChainSet;
use lynx_text::printing::{put_number, put_word};
use std::alloc::Global;

pub mod first;
mod left;
mod needs;

/// The line of the set's text on which the action stands, counted from 1.
pub(crate) fn action_line(set: &ChainSet, program: ProgramId, at: NeverAt) -> usize
    requires text { IsSet set.now }
    requires there { at.action < length (actions_at set.now program at.hop) }
    ensures { result ≡ action_line set.now program at }
{
    let hop = line_of(
        set,
        &Place {
            program,
            hop: at.hop,
        },
    );
    hop + 1 + at.action
}

/// Writes the line of a program, and of the action by which it can't begin.
fn put_never_line(
    alloc: Global,
    out: &mut Vec<u8>,
    set: &ChainSet,
    program: ProgramId,
    at: NeverAt,
) -> Result<(), Memory>
    requires text { IsSet set.now }
    requires there { at.action < length (actions_at set.now program at.hop) }
    ensures { OnOk result (out.new.items ≡ out.old.items ++ never_line set.now program at) }
{
    out.extend_from_slice(b"never".as_slice())?;
    put_word(out, set.program_name(program))?;
    out.extend_from_slice(b" line ".as_slice())?;
    put_number(alloc, out, action_line(set, program, at) as u64)?;
    out.push(b'\n')?;
    Ok(())
}

/// Writes the line of a program, if it can never begin.
fn put_never(
    alloc: Global,
    out: &mut Vec<u8>,
    set: &ChainSet,
    program: ProgramId,
) -> Result<(), Memory>
    requires { IsSet set.now }
    ensures { OnOk result (out.new.items ≡ out.old.items ++ never_text set.now program) }
{
    if let Some(at) = first_never(set, program) {
        put_never_line(alloc, out, set, program, at)?;
    }
    Ok(())
}

/// Writes a line for each program that can never begin.
pub(crate) fn put_never_lines(
    alloc: Global,
    out: &mut Vec<u8>,
    set: &ChainSet,
) -> Result<(), Memory>
    requires { IsSet set.now }
    ensures { OnOk result (out.new.items ≡ out.old.items ++ never_lines set.now) }
{
    for number in 0..set.programs().len() {
        put_never(alloc, out, set, program_of(number))?;
    }
    Ok(())
}
