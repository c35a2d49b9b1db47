//! The programs that return to the server where they begin: it answers busy to each begin until the
//! chain is back.

ghost use Rattle.std.specs.Prelude.{◌≡◌, ◌++◌, OnOk};
ghost use Rattle.std.specs.List.{flat_map, range_with_len};
ghost use Rattle.lynx_reasons.specs.Busy.{busy_line, busy_lines, busy_text, is_there_again};

use lynx_graph::program_of;
use lynx_names::{Memory, ProgramId, ServerId};
use lynx_set::{ChainSet, Hop};
use lynx_text::printing::{put_number, put_word};
use std::alloc::Global;

/// Whether one of these hops is at the server.
fn is_there_again(server: ServerId, later: &[Hop]) -> bool
    ensures { result ≡ is_there_again server later.now }
{
    later.iter().any(|hop| hop.server == server)
}

/// Writes the line of a program and the server to which it returns.
fn put_busy_line(
    alloc: Global,
    out: &mut Vec<u8>,
    set: &ChainSet,
    program: ProgramId,
    server: ServerId,
) -> Result<(), Memory>
    ensures { OnOk result (out.new.items ≡ out.old.items ++ busy_line set.now program server) }
{
    out.extend_from_slice(b"busy".as_slice())?;
    put_word(out, set.program_name(program))?;
    out.push(b' ')?;
    put_number(alloc, out, u64::from(server.number()))?;
    out.push(b'\n')?;
    Ok(())
}

/// Writes the line of a program, if it returns.
fn put_busy(
    alloc: Global,
    out: &mut Vec<u8>,
    set: &ChainSet,
    program: ProgramId,
) -> Result<(), Memory>
    ensures { OnOk result (out.new.items ≡ out.old.items ++ busy_text set.now program) }
{
    if let [first, later @ ..] = set.hops(program) {
        if is_there_again(first.server, later) {
            put_busy_line(alloc, out, set, program, first.server)?;
        }
    }
    Ok(())
}

/// Writes a line for each program that returns.
pub(crate) fn put_busy_lines(alloc: Global, out: &mut Vec<u8>, set: &ChainSet) -> Result<(), Memory>
    ensures { OnOk result (out.new.items ≡ out.old.items ++ busy_lines set.now) }
{
    for number in 0..set.programs().len() {
        put_busy(alloc, out, set, program_of(number))?;
    }
    Ok(())
}
