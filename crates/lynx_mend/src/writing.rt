//! Lines of a set's text.
use lynx_lex::Name;
use lynx_names::limits::MAX_PARAMETERS;
use lynx_names::{Memory, ServerId};
use lynx_set::{ParameterRange, Program, range_of};
use lynx_text::printing::{put_interval, put_number, put_word};
use std::alloc::Global;

/// Ends a line.
pub(crate) fn end_line(out: &mut Vec<u8>) -> Result<(), Memory> {
    out.push(b'\n')?;
    Ok(())
}

/// Writes the line of a table whose cells are all at one server, and that of its shard.
pub(crate) fn put_whole_table(
    alloc: Global,
    out: &mut Vec<u8>,
    name: &Name,
    server: ServerId,
) -> Result<(), Memory> {
    out.extend_from_slice(b"table".as_slice())?;
    put_word(out, name.as_bytes())?;
    out.extend_from_slice(b"\nshard 0 ".as_slice())?;
    put_number(alloc, out, u64::MAX)?;
    out.push(b' ')?;
    put_number(alloc, out, u64::from(server.number()))?;
    end_line(out)
}

/// Writes the first line of a program, under that name.
fn put_program_line(out: &mut Vec<u8>, name: &[u8], program: &Program) -> Result<(), Memory> {
    out.extend_from_slice(b"program".as_slice())?;
    put_word(out, name)?;
    for parameter in program.names.as_slice().iter().take(program.parameters) {
        put_word(out, parameter.as_bytes())?;
    }
    end_line(out)
}

/// Writes the line of a parameter's range.
fn put_range(
    alloc: Global,
    out: &mut Vec<u8>,
    program: &Program,
    range: ParameterRange,
) -> Result<(), Memory> {
    out.extend_from_slice(b"range".as_slice())?;
    if let Some(name) = program.names.as_slice().get(usize::from(range.parameter)) {
        put_word(out, name.as_bytes())?;
    }
    out.push(b' ')?;
    put_interval(alloc, out, range.interval)?;
    end_line(out)
}

/// The range of a parameter: the one that is added, or the one that it has.
fn range_at(
    program: &Program,
    added: Option<ParameterRange>,
    parameter: u8,
) -> Option<ParameterRange> {
    match added {
        Some(range) if range.parameter == parameter => Some(range),
        _ => {
            let interval = range_of(program.ranges.as_slice(), parameter)?;
            Some(ParameterRange {
                parameter,
                interval,
            })
        }
    }
}

/// Writes the first line of a program, under that name, and those of its ranges, with one added
/// maybe.
pub(crate) fn put_head(
    alloc: Global,
    out: &mut Vec<u8>,
    name: &[u8],
    program: &Program,
    added: Option<ParameterRange>,
) -> Result<(), Memory> {
    put_program_line(out, name, program)?;
    for parameter in 0..MAX_PARAMETERS as u8 {
        if let Some(range) = range_at(program, added, parameter) {
            put_range(alloc, out, program, range)?;
        }
    }
    Ok(())
}

/// Writes the first line of a hop.
pub(crate) fn put_hop_line(
    alloc: Global,
    out: &mut Vec<u8>,
    server: ServerId,
) -> Result<(), Memory> {
    out.extend_from_slice(b"hop ".as_slice())?;
    put_number(alloc, out, u64::from(server.number()))?;
    end_line(out)
}

/// Writes the last line of a program.
pub(crate) fn put_end(out: &mut Vec<u8>) -> Result<(), Memory> {
    out.extend_from_slice(b"end\n".as_slice())?;
    Ok(())
}
