//! Programs as clusters of nodes.

ghost use Rattle.std.specs.Prelude.{◌≡◌, ◌≤◌, ◌++◌, OnOk, length};
ghost use Rattle.lynx_names.specs.declared.limits.TheConstants.{MAX_PARAMETERS};
ghost use Rattle.lynx_set.specs.Lookups.{program_name, ranges_of};
ghost use Rattle.lynx_draw.specs.Clusters.{cluster_label, cluster_name, cluster_text, first_label, frame_text, label_text, late_words, parameters_of, parameters_text, range_text, second_label};

use crate::captions::{late_label, thick_frame};
use crate::nodes::put_hops;
use lynx_graph::program_of;
use lynx_lex::Name;
use lynx_names::{Memory, ProgramId};
use lynx_set::{ChainSet, Interval, ParameterRange, range_of};
use lynx_text::printing::{put_interval, put_word};
use std::alloc::Global;

fn put_range(alloc: Global, out: &mut Vec<u8>, range: Option<Interval>) -> Result<(), Memory>
    ensures { OnOk result (out.new.items ≡ out.old.items ++ range_text range) }
{
    let Some(interval) = range else {
        return Ok(());
    };
    out.push(b':')?;
    put_interval(alloc, out, interval)
}

/// Writes a space before each name, and its range behind it.
fn put_names(
    alloc: Global,
    out: &mut Vec<u8>,
    ranges: &[ParameterRange],
    names: &[Name],
) -> Result<(), Memory>
    requires { length names.now ≤ MAX_PARAMETERS }
    ensures { OnOk result (out.new.items ≡ out.old.items
        ++ parameters_text ranges.now 0 names.now) }
{
    let mut place: u8 = 0;
    for name in names {
        put_word(out, name.as_bytes())?;
        put_range(alloc, out, range_of(ranges, place))?;
        place += 1;
    }
    Ok(())
}

/// Writes the names of the program's parameters, each with its range.
fn put_parameters(
    alloc: Global,
    out: &mut Vec<u8>,
    set: &ChainSet,
    program: ProgramId,
) -> Result<(), Memory>
    ensures { OnOk result (out.new.items ≡ out.old.items
        ++ parameters_text (ranges_of set.now program) 0 (parameters_of set.now program)) }
{
    let Some(found) = set.program(program) else {
        return Ok(());
    };
    let names = found.names.as_slice();
    let parameters = &names[..found.parameters.min(names.len())];
    put_names(alloc, out, set.ranges(program), parameters)
}

fn put_program_name(out: &mut Vec<u8>, set: &ChainSet, program: ProgramId) -> Result<(), Memory>
    ensures { OnOk result (out.new.items ≡ out.old.items ++ program_name set.now program) }
{
    out.extend_from_slice(set.program_name(program))?;
    Ok(())
}

/// Writes a thick frame round a program that stands in the way.
fn put_frame(out: &mut Vec<u8>, late: bool) -> Result<(), Memory>
    ensures { OnOk result (out.new.items ≡ out.old.items ++ frame_text late) }
{
    if late {
        out.extend_from_slice(thick_frame())?;
    }
    Ok(())
}

/// Writes below its name why it does.
fn put_late_words(out: &mut Vec<u8>, late: bool) -> Result<(), Memory>
    ensures { OnOk result (out.new.items ≡ out.old.items ++ late_words late) }
{
    if late {
        out.extend_from_slice(late_label())?;
    }
    Ok(())
}

/// Writes what stands over a program: its name and its parameters.
fn put_first_label(
    alloc: Global,
    out: &mut Vec<u8>,
    set: &ChainSet,
    late: bool,
    program: ProgramId,
) -> Result<(), Memory>
    ensures { OnOk result (out.new.items ≡ out.old.items ++ first_label set.now late program) }
{
    out.extend_from_slice(b"    label=\"".as_slice())?;
    put_program_name(out, set, program)?;
    put_parameters(alloc, out, set, program)?;
    put_late_words(out, late)?;
    out.extend_from_slice(b"\";\n".as_slice())?;
    Ok(())
}

/// Writes what stands over a program that is drawn again.
fn put_second_label(out: &mut Vec<u8>, set: &ChainSet, program: ProgramId) -> Result<(), Memory>
    ensures { OnOk result (out.new.items ≡ out.old.items ++ second_label set.now program) }
{
    out.extend_from_slice(b"    style=\"dashed,rounded\"; label=\"".as_slice())?;
    put_program_name(out, set, program)?;
    out.extend_from_slice(b" (again)\";\n".as_slice())?;
    Ok(())
}

/// Writes how a program stands out, and what stands over it.
fn put_cluster_label(
    alloc: Global,
    out: &mut Vec<u8>,
    set: &ChainSet,
    late: bool,
    program: ProgramId,
    again: bool,
) -> Result<(), Memory>
    ensures { OnOk result (out.new.items ≡ out.old.items
        ++ cluster_label set.now late program again) }
{
    put_frame(out, late)?;
    put_label(alloc, out, set, late, program, again)
}

/// Writes what stands over a program, or over the program drawn again.
fn put_label(
    alloc: Global,
    out: &mut Vec<u8>,
    set: &ChainSet,
    late: bool,
    program: ProgramId,
    again: bool,
) -> Result<(), Memory>
    ensures { OnOk result (out.new.items ≡ out.old.items
        ++ label_text set.now late program again) }
{
    if again {
        put_second_label(out, set, program)
    } else {
        put_first_label(alloc, out, set, late, program)
    }
}

/// Writes the first line of a cluster.
fn put_cluster_name(
    out: &mut Vec<u8>,
    set: &ChainSet,
    program: ProgramId,
    again: bool,
) -> Result<(), Memory>
    ensures { OnOk result (out.new.items ≡ out.old.items
        ++ cluster_name set.now program again) }
{
    out.extend_from_slice(b"  subgraph \"cluster ".as_slice())?;
    put_program_name(out, set, program)?;
    if again {
        put_word(out, b"again")?;
    }
    out.extend_from_slice(b"\" {\n".as_slice())?;
    Ok(())
}

/// Writes a program, or the program drawn again, where it stands in the way or doesn't.
pub(crate) fn put_cluster(
    alloc: Global,
    out: &mut Vec<u8>,
    set: &ChainSet,
    late: bool,
    program: ProgramId,
    again: bool,
) -> Result<(), Memory>
    ensures { OnOk result (out.new.items ≡ out.old.items
        ++ cluster_text set.now late program again) }
{
    put_cluster_name(out, set, program, again)?;
    put_cluster_label(alloc, out, set, late, program, again)?;
    put_hops(alloc, out, set, program, again)?;
    out.extend_from_slice(b"  }\n".as_slice())?;
    Ok(())
}
