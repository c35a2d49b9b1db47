//! What makes the set of a text accepted: changes in words, or the text or the picture with one of
//! them.
ghost use Rattle.std.specs.Prelude.{◌≡◌, ◌≤◌, true, false, ℕ, List, IfOk, IfErr, IfSome, IfNone, OnErr, codes, length};
ghost use Rattle.std.specs.Io.KnownBytes.{Appends, Keeps};
ghost use Rattle.lynx_graph.specs.Acceptance.{IsAccepted};
ghost use Rattle.lynx_lex.specs.Lines.{with_feed};
ghost use Rattle.lynx_report.specs.Drawings.{NoPictureFor};
ghost use Rattle.lynx_set.specs.Rules.{IsSet};
ghost use Rattle.lynx_cli.specs.Mendings.{AreProposals, BeginsMending, HasMended, IsChanged, IsMendedPicture, IsMendedText, IsProposal, IsProposed, Mends, MendsText, OffendsText, ShowsChange, StopsMending};

use crate::fault::Fault;
use crate::texts::DONE;
use lynx_check::{Verdict, check};
use lynx_draw::{Extent, draw_changed};
use lynx_mend::{Change, Mending, mend, put_mending};
use lynx_names::Memory;
use lynx_reasons::mends;
use lynx_report::{RunFault, read_set, write_bytes};
use lynx_set::ChainSet;
use lynx_text::print;
use lynx_text::printing::put_number;
use std::alloc::Global;
use std::io::Write;

/// What is hinted at where changes were found.
const SEE_MEND: &str =
    "  see lynx mend: it tells changes each of which makes the set accepted, the smallest first\n";

/// What is shown of that which makes a set accepted.
#[derive(Clone, Copy, Debug, PartialEq, Eq)]
pub enum MendingView {
    /// The changes in words, the smallest first.
    List,
    /// The text of the set with the change of that number.
    Text(u8),
    /// The picture of the set with the change of that number, or of some of its programs alone.
    Picture { change: u8, shown: Extent },
}

/// Writes what makes the set of a text accepted, as it is to be shown.
pub fn mend_set<'a, W: Write>(
    alloc: Global,
    text: &[u8],
    view: MendingView,
    writer: &mut W,
) -> Result<u8, Fault<'a>>
    ensures ok { IfOk result (HasMended view text.now (W.contents writer.old)
        (W.contents writer.new)) }
    ensures err { IfErr result (StopsMending view text.now (W.contents writer.old)
        (W.contents writer.new)) }
{
    match write_mended(alloc, text, view, writer) {
        Ok(true) => Ok(DONE),
        Ok(false) => Err(Fault::NoMending),
        Err(fault) => Err(Fault::of_run(fault)),
    }
}

/// The same, and whether a mending was found. All that is written is made before.
fn write_mended<W: Write>(
    alloc: Global,
    text: &[u8],
    view: MendingView,
    writer: &mut W,
) -> Result<bool, RunFault>
    ensures yes { IfOk result (λ found. found ≡ true → (printed : List ℕ)
        × MendsText view text.now printed
        × Appends (W.contents writer.old) (W.contents writer.new) printed) }
    ensures no { IfOk result (λ found. found ≡ false → OffendsText text.now
        × Keeps (W.contents writer.old) (W.contents writer.new)) }
    ensures part { OnErr result (BeginsMending view text.now (W.contents writer.old)
        (W.contents writer.new)) }
    ensures err { IfErr result (λ fault. NoPictureFor text.now (Keeps (W.contents writer.old)
        (W.contents writer.new)) fault) }
{
    let set = read_set(alloc, text)?;
    match mended(alloc, &set, view)? {
        Some(bytes) => {
            write_bytes(writer, bytes.as_slice())?;
            Ok(true)
        }
        None => Ok(false),
    }
}

/// What is to be written of a set. None where no mending was found.
fn mended(alloc: Global, set: &ChainSet, view: MendingView) -> Result<Option<Vec<u8>>, Memory>
    requires { IsSet set.now }
    ensures some { IfOk result (λ found. IfSome found (λ bytes. Mends view set.now bytes.items)) }
    ensures none { IfOk result (λ found. IfNone found (¬ IsAccepted set.now)) }
{
    if is_accepted(alloc, set)? {
        Ok(Some(of_accepted(alloc, set, view)?))
    } else {
        of_offending(alloc, set, view)
    }
}

/// Whether a set is accepted.
pub(crate) fn is_accepted(alloc: Global, set: &ChainSet) -> Result<bool, Memory>
    ensures yes { IfOk result (λ accepted. accepted ≡ true → IsAccepted set.now) }
    ensures no { IfOk result (λ accepted. accepted ≡ false → ¬ IsAccepted set.now) }
{
    match check(alloc, set)? {
        Verdict::Accepted(_) => Ok(true),
        Verdict::Offending(_, _) => Ok(false),
    }
}

/// What is written of an accepted set.
fn of_accepted(alloc: Global, set: &ChainSet, view: MendingView) -> Result<Vec<u8>, Memory>
    requires legal { IsSet set.now }
    requires accepted { IsAccepted set.now }
    ensures { IfOk result (λ bytes. Mends view set.now bytes.items) }
{
    match view {
        MendingView::List => nothing_to_mend(alloc),
        MendingView::Text(_) => print(alloc, set),
        MendingView::Picture { shown, .. } => picture(alloc, set, set, shown),
    }
}

fn nothing_to_mend(alloc: Global) -> Result<Vec<u8>, Memory>
    ensures { IfOk result (λ bytes. bytes.items ≡ with_feed (codes "nothing to mend")) }
{
    let mut bytes = Vec::new(alloc);
    bytes.extend_from_slice(b"nothing to mend\n".as_slice())?;
    Ok(bytes)
}

/// What is written of a set that offends. None where no mending was found.
fn of_offending(alloc: Global, set: &ChainSet, view: MendingView) -> Result<Option<Vec<u8>>, Memory>
    requires { ¬ IsAccepted set.now }
    ensures { IfOk result (λ found. IfSome found (λ bytes. Mends view set.now bytes.items)) }
{
    match view {
        MendingView::List => proposals(alloc, set),
        MendingView::Text(change) => with_change(alloc, set, change, None),
        MendingView::Picture { change, shown } => with_change(alloc, set, change, Some(shown)),
    }
}

/// The text of a set that offends with the change of that number, or the picture where one is asked
/// for. None where there are fewer changes.
fn with_change(
    alloc: Global,
    set: &ChainSet,
    change: u8,
    shown: Option<Extent>,
) -> Result<Option<Vec<u8>>, Memory>
    requires { ¬ IsAccepted set.now }
    ensures { IfOk result (λ found. IfSome found (λ bytes. ShowsChange shown set.now bytes.items)) }
{
    let found = mend(alloc, set)?;
    match found.as_slice().get(usize::from(change.saturating_sub(1))) {
        Some(mending) => Ok(Some(changed(alloc, set, mending.set(), shown)?)),
        None => Ok(None),
    }
}

/// The text of a changed set, or its picture.
fn changed(
    alloc: Global,
    before: &ChainSet,
    set: &ChainSet,
    shown: Option<Extent>,
) -> Result<Vec<u8>, Memory>
    requires { IsChanged before.now set.now }
    ensures { IfOk result (λ bytes. ShowsChange shown before.now bytes.items) }
{
    match shown {
        Some(shown) => picture(alloc, before, set, shown),
        None => print(alloc, set),
    }
}

/// The picture of a changed set.
fn picture(
    alloc: Global,
    before: &ChainSet,
    set: &ChainSet,
    shown: Extent,
) -> Result<Vec<u8>, Memory>
    requires { IsChanged before.now set.now }
    ensures { IfOk result (λ bytes. IsMendedPicture shown before.now bytes.items) }
{
    let verdict = check(alloc, set)?;
    draw_changed(alloc, before, set, &verdict, shown)
}

/// What makes a set accepted that offends, in words. None where nothing was found.
fn proposals(alloc: Global, set: &ChainSet) -> Result<Option<Vec<u8>>, Memory>
    requires { ¬ IsAccepted set.now }
    ensures { IfOk result (λ found. IfSome found (λ bytes. IsProposed set.now bytes.items)) }
{
    let found = mend(alloc, set)?;
    if found.is_empty() {
        return Ok(None);
    }
    Ok(Some(list(alloc, set, found.as_slice())?))
}

/// The changes in words, numbered from 1 on.
fn list(alloc: Global, set: &ChainSet, mendings: &[Mending]) -> Result<Vec<u8>, Memory>
    requires { length mendings.now ≤ 10 }
    ensures { IfOk result (λ bytes. AreProposals 1 mendings.now bytes.items) }
{
    let mut out = Vec::new(alloc);
    let mut number = 1u64;
    for mending in mendings {
        let proposal = proposal(alloc, set, number, mending)?;
        out.extend_from_slice(proposal.as_slice())?;
        number += 1;
    }
    Ok(out)
}

/// A change in words, behind its number. The set with it is accepted, as is that of any mending.
fn proposal(
    alloc: Global,
    set: &ChainSet,
    number: u64,
    mending: &Mending,
) -> Result<Vec<u8>, Memory>
    ensures { IfOk result (λ bytes. IsProposal number mending.now bytes.items) }
{
    let _accepted = mending.set();
    let words = words_of(alloc, set, mending)?;
    let mut out = Vec::new(alloc);
    put_number(alloc, &mut out, number)?;
    out.extend_from_slice(b". ".as_slice())?;
    out.extend_from_slice(words.as_slice())?;
    Ok(out)
}

/// A change in words.
fn words_of(alloc: Global, set: &ChainSet, mending: &Mending) -> Result<Vec<u8>, Memory> {
    let mut words = Vec::new(alloc);
    put_mending(alloc, &mut words, set, mending)?;
    Ok(words)
}

/// Whether what is changed is smaller than the arguments that a program may take.
fn is_small(mending: &Mending) -> bool {
    !matches!(mending.first(), Change::Range { .. } | Change::Leave { .. })
}

/// What is hinted at behind the verdict on a set that offends: the command that tells changes,
/// where one of them is smaller than ranges; else changes that aren't judged.
pub(crate) fn mending_lines(alloc: Global, set: &ChainSet) -> Result<String, Memory>
    requires { IsSet set.now }
{
    let found = mend(alloc, set)?;
    match found.first() {
        Some(first) if is_small(first) => {
            let lines = String::from_str(alloc, SEE_MEND)?;
            Ok(lines)
        }
        _ => unjudged_lines(alloc, set),
    }
}

fn unjudged_lines(alloc: Global, set: &ChainSet) -> Result<String, Memory>
    requires { IsSet set.now }
{
    match String::from_utf8(mends(alloc, set)?) {
        Ok(lines) => Ok(lines),
        Err(_) => Ok(String::new(alloc)),
    }
}
