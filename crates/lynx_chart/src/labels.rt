//! What is told of an entry.
ghost use Rattle.std.specs.Prelude.{◌≡◌, ◌<◌, ◌++◌, [], ◌∷◌, IfOk, IfSome, OnOk, codes, option_copied};
ghost use Rattle.lynx_set.specs.Lookups.{program_name};
ghost use Rattle.lynx_chart.specs.Places.{place_line, word_of};
ghost use Rattle.lynx_chart.specs.Labels.{asked_text, chain_in, deed_text, entry_lines, entry_place, hop_text, kind_of, lines_of, owes_text, program_text, results_line, results_text, results_told, stamp_text};

use crate::places::{place_of, put_place_line, word_of};
use lynx_entry::Entry;
use lynx_lines::{push_spaced, push_values};
use lynx_names::{ChainId, Memory, ProgramId};
use lynx_order::Explained;
use lynx_set::ChainSet;
use std::alloc::Global;

/// The chain of which a hop ran, if one did.
fn chain_in(entry: &Entry) -> Option<&ChainId>
    ensures { option_copied result ≡ chain_in entry.now }
{
    match entry {
        Entry::Begun(begun) => Some(&begun.chain),
        Entry::Refused(_) => None,
        Entry::Hop(ran) => Some(&ran.message.chain),
    }
}

/// The place of an entry's chain, if it has one.
fn entry_place(explained: &Explained, entry: &Entry) -> Option<usize>
    ensures place { result ≡ entry_place explained.now entry.now }
    ensures fits { IfSome result (λ place. place < usize.MAX) }
{
    match chain_in(entry) {
        Some(chain) => place_of(explained, chain),
        None => None,
    }
}

/// Writes a hop of a chain.
pub(crate) fn put_hop(
    alloc: Global,
    out: &mut Vec<u8>,
    chain: &ChainId,
    hop: u8,
) -> Result<(), Memory>
    ensures { OnOk result (out.new.items ≡ out.old.items ++ hop_text chain.now hop) }
{
    let text = format!(in alloc; "{chain} hop {hop}")?;
    out.extend_from_slice(text.as_bytes())?;
    Ok(())
}

/// Writes what the server did.
fn put_deed(alloc: Global, out: &mut Vec<u8>, entry: &Entry) -> Result<(), Memory>
    ensures { OnOk result (out.new.items ≡ out.old.items ++ deed_text entry.now) }
{
    let text = match entry {
        Entry::Begun(begun) => {
            let chain = &begun.chain;
            format!(in alloc; "{chain} begins")?
        }
        Entry::Refused(refused) => {
            let need = refused.need;
            format!(in alloc; "refused by need {need}")?
        }
        Entry::Hop(ran) => return put_hop(alloc, out, &ran.message.chain, ran.message.hop),
    };
    out.extend_from_slice(text.as_bytes())?;
    Ok(())
}

/// Writes a program with its arguments.
fn put_asked(
    alloc: Global,
    out: &mut Vec<u8>,
    set: &ChainSet,
    program: ProgramId,
    values: &[u64],
) -> Result<(), Memory>
    ensures { OnOk result (out.new.items ≡ out.old.items
        ++ asked_text set.now program values.now) }
{
    let mut args = String::new(alloc);
    push_spaced(&mut args, values)?;
    out.extend_from_slice(set.program_name(program))?;
    out.extend_from_slice(args.as_bytes())?;
    Ok(())
}

/// Writes of which program it is, with the chain's arguments.
fn put_program(
    alloc: Global,
    out: &mut Vec<u8>,
    set: &ChainSet,
    entry: &Entry,
) -> Result<(), Memory>
    ensures { OnOk result (out.new.items ≡ out.old.items ++ program_text set.now entry.now) }
{
    match entry {
        Entry::Begun(begun) => {
            let request = &begun.request;
            put_asked(alloc, out, set, request.program, request.args.as_slice())
        }
        Entry::Refused(refused) => {
            let request = &refused.request;
            put_asked(alloc, out, set, request.program, request.args.as_slice())
        }
        Entry::Hop(ran) => {
            let message = &ran.message;
            put_asked(alloc, out, set, message.program, message.args.as_slice())
        }
    }
}

fn put_results(alloc: Global, out: &mut Vec<u8>, values: &[u64]) -> Result<(), Memory>
    ensures { OnOk result (out.new.items ≡ out.old.items ++ results_text values.now) }
{
    let mut text = String::from_str(alloc, "results ")?;
    push_values(&mut text, values)?;
    out.extend_from_slice(text.as_bytes())?;
    Ok(())
}

/// Writes the line of these results, if there are any.
fn put_results_told(alloc: Global, out: &mut Vec<u8>, values: &[u64]) -> Result<(), Memory>
    ensures { OnOk result (out.new.items ≡ out.old.items ++ results_told values.now) }
{
    match values {
        [] => Ok(()),
        [_, ..] => put_results(alloc, out, values),
    }
}

/// Writes the line of the results, if a hop ran and has any.
fn put_results_line(alloc: Global, out: &mut Vec<u8>, entry: &Entry) -> Result<(), Memory>
    ensures { OnOk result (out.new.items ≡ out.old.items ++ results_line entry.now) }
{
    match entry {
        Entry::Begun(begun) => put_results_told(alloc, out, begun.results.as_slice()),
        Entry::Refused(_) => Ok(()),
        Entry::Hop(ran) => put_results_told(alloc, out, ran.results.as_slice()),
    }
}

/// What stands in a box: in its corner, and a line each below one another. The corner, and the last
/// lines, may have no bytes.
#[derive(Drop)]
pub(crate) struct Label {
    pub corner: Vec<u8>,
    pub deed: Vec<u8>,
    pub program: Vec<u8>,
    pub place: Vec<u8>,
    pub results: Vec<u8>,
}

/// When the server did it.
fn stamp_text(alloc: Global, entry: &Entry) -> Result<Vec<u8>, Memory>
    ensures { IfOk result (λ text. text.items ≡ stamp_text entry.now) }
{
    let stamp = entry.stamp();
    let text = format!(in alloc; "stamp {stamp}")?;
    Ok(text.into_bytes())
}

/// What it did.
fn deed_text(alloc: Global, entry: &Entry) -> Result<Vec<u8>, Memory>
    ensures { IfOk result (λ text. text.items ≡ deed_text entry.now) }
{
    let mut text = Vec::new(alloc);
    put_deed(alloc, &mut text, entry)?;
    Ok(text)
}

fn program_text(alloc: Global, set: &ChainSet, entry: &Entry) -> Result<Vec<u8>, Memory>
    ensures { IfOk result (λ text. text.items ≡ program_text set.now entry.now) }
{
    let mut text = Vec::new(alloc);
    put_program(alloc, &mut text, set, entry)?;
    Ok(text)
}

fn results_line(alloc: Global, entry: &Entry) -> Result<Vec<u8>, Memory>
    ensures { IfOk result (λ text. text.items ≡ results_line entry.now) }
{
    let mut text = Vec::new(alloc);
    put_results_line(alloc, &mut text, entry)?;
    Ok(text)
}

fn place_text(alloc: Global, explained: &Explained, entry: &Entry) -> Result<Vec<u8>, Memory>
    ensures { IfOk result (λ text. text.items
        ≡ place_line (word_of explained.now) (entry_place explained.now entry.now)) }
{
    let mut text = Vec::new(alloc);
    put_place_line(
        alloc,
        &mut text,
        word_of(explained),
        entry_place(explained, entry),
    )?;
    Ok(text)
}

/// That a hop of a chain is owed.
pub(crate) fn owes_text(alloc: Global, chain: &ChainId, hop: u8) -> Result<Vec<u8>, Memory>
    ensures { IfOk result (λ text. text.items ≡ owes_text chain.now hop) }
{
    let text = format!(in alloc; "{chain} owes hop {hop}")?;
    Ok(text.into_bytes())
}

/// What stands in an entry's box.
pub(crate) fn label_of(
    alloc: Global,
    set: &ChainSet,
    explained: &Explained,
    entry: &Entry,
) -> Result<Label, Memory>
    ensures corner { IfOk result (λ label. label.corner.items ≡ stamp_text entry.now) }
    ensures lines { IfOk result (λ label. lines_of label
        ≡ entry_lines set.now explained.now entry.now) }
{
    Ok(Label {
        corner: stamp_text(alloc, entry)?,
        deed: deed_text(alloc, entry)?,
        program: program_text(alloc, set, entry)?,
        place: place_text(alloc, explained, entry)?,
        results: results_line(alloc, entry)?,
    })
}

/// The kind of an entry's box.
pub(crate) fn kind_of(entry: &Entry) -> &'static [u8]
    ensures { result.now ≡ kind_of entry.now }
{
    match entry {
        Entry::Begun(_) | Entry::Hop(_) => b"box",
        Entry::Refused(_) => b"box refusal",
    }
}
