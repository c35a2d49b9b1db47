//! The whole picture.

ghost use Rattle.std.specs.Prelude.{◌≡◌, ◌++◌, IfOk, OnOk, option_copied};
ghost use Rattle.lynx_draw.specs.Lines.{conflict_lines};
ghost use Rattle.lynx_draw.specs.Picture.{IsChangedPicture, IsPicture, IsPictureSince, caption, changed_caption, marks_since, picture_with, style_of, verdict_text};
ghost use Rattle.lynx_draw.specs.Programs.{programs_text};
ghost use Rattle.lynx_draw.specs.Shown.{shown_edges};

use crate::captions::{
    accepted_text, changed_text, conflict_style, excused_style, excused_text, head_text, late_text,
    legend_text, offending_text, walk_style,
};
use crate::lines::{put_conflicts, put_steps};
use crate::marks::put_marks;
use crate::parts::{Parts, parts_of};
use crate::programs::put_programs;
use crate::shown::{Extent, shown_edges};
use lynx_check::Verdict;
use lynx_graph::{Edge, conflict_edges};
use lynx_names::Memory;
use lynx_set::ChainSet;
use std::alloc::Global;

/// What is said where the walk is drawn.
fn verdict_text(verdict: &Verdict) -> &'static [u8]
    ensures { result.now ≡ verdict_text verdict.now }
{
    match verdict {
        Verdict::Accepted(accepted) => match accepted.excused() {
            Some(_) => excused_text(),
            None => accepted_text(),
        },
        Verdict::Offending(_, _) => offending_text(),
    }
}

fn caption(shown: Extent, verdict: &Verdict) -> &'static [u8]
    ensures { result.now ≡ caption shown verdict.now }
{
    match (shown, verdict) {
        (Extent::Late, Verdict::Accepted(_)) => accepted_text(),
        (Extent::Late, Verdict::Offending(_, _)) => late_text(),
        (Extent::All | Extent::Walk, _) => verdict_text(verdict),
    }
}

/// What is said of a changed set, of which there is the set before.
fn changed_caption(before: Option<&ChainSet>) -> &'static [u8]
    ensures { result.now ≡ changed_caption (option_copied before.entry) }
{
    match before {
        Some(_) => changed_text(),
        None => &[],
    }
}

fn style_of(verdict: &Verdict) -> &'static [u8]
    ensures { result.now ≡ style_of verdict.now }
{
    match verdict {
        Verdict::Accepted(accepted) => match accepted.excused() {
            Some(_) => excused_style(),
            None => walk_style(),
        },
        Verdict::Offending(_, _) => walk_style(),
    }
}

/// Writes the programs that are drawn.
fn put_shown_programs(
    alloc: Global,
    out: &mut Vec<u8>,
    set: &ChainSet,
    edges: &[Edge],
    parts: &Parts,
) -> Result<(), Memory>
    ensures { OnOk result (out.new.items ≡ out.old.items
        ++ programs_text set.now parts.now.boxes parts.now.late edges.now parts.now.programs) }
{
    let programs = parts.programs.as_slice();
    put_programs(alloc, out, set, &parts.boxes, &parts.late, edges, programs)
}

/// Writes the conflicts that are drawn.
fn put_shown_conflicts(
    alloc: Global,
    out: &mut Vec<u8>,
    set: &ChainSet,
    edges: &[Edge],
    parts: &Parts,
) -> Result<(), Memory>
    ensures { OnOk result (out.new.items ≡ out.old.items
        ++ conflict_lines set.now parts.now.steps
        (shown_edges parts.now.programs parts.now.boxes edges.now)) }
{
    let drawn = shown_edges(alloc, edges, &parts.boxes, parts.programs.as_slice())?;
    put_conflicts(alloc, out, set, drawn.as_slice(), parts.steps.as_slice())
}

/// Writes the marks on the hops that changed since the set before, if there is one.
fn put_marks_since(
    alloc: Global,
    out: &mut Vec<u8>,
    before: Option<&ChainSet>,
    set: &ChainSet,
    edges: &[Edge],
    parts: &Parts,
) -> Result<(), Memory>
    ensures { OnOk result (out.new.items ≡ out.old.items
        ++ marks_since (option_copied before.entry) set.now edges.now parts.now) }
{
    let programs = parts.programs.as_slice();
    match before {
        Some(before) => put_marks(alloc, out, before, set, &parts.boxes, edges, programs),
        None => Ok(()),
    }
}

/// The picture of a set and of the verdict on it, as a text that Graphviz's `dot` reads, with the
/// programs that are to be shown. Its length grows with the square of the count of hops. The only
/// error is that a growth was refused.
pub fn draw(
    alloc: Global,
    set: &ChainSet,
    verdict: &Verdict,
    shown: Extent,
) -> Result<Vec<u8>, Memory>
    ensures { IfOk result (λ text. IsPicture shown set.now verdict.now text.items) }
{
    draw_since(alloc, None, set, verdict, shown)
}

/// The picture of a changed set, with thick frames around the hops that the set before hasn't. A
/// hop is the same where the program of its name has one at the same number and server with the
/// same lines of actions. The hops of a box are not marked. The only error is that a growth was
/// refused.
pub fn draw_changed(
    alloc: Global,
    before: &ChainSet,
    set: &ChainSet,
    verdict: &Verdict,
    shown: Extent,
) -> Result<Vec<u8>, Memory>
    ensures { IfOk result
        (λ text. IsChangedPicture shown before.now set.now verdict.now text.items) }
{
    draw_since(alloc, Some(before), set, verdict, shown)
}

/// The picture of a set, with marks on what changed since the set before, if there is one.
fn draw_since(
    alloc: Global,
    before: Option<&ChainSet>,
    set: &ChainSet,
    verdict: &Verdict,
    shown: Extent,
) -> Result<Vec<u8>, Memory>
    ensures { IfOk result (λ text. IsPictureSince shown (option_copied before.entry) set.now
        verdict.now text.items) }
{
    let all_edges = conflict_edges(alloc, set)?;
    let edges = all_edges.as_slice();
    let parts = parts_of(alloc, set, edges, verdict, shown)?;
    let text = draw_with(alloc, before, set, verdict, shown, edges, &parts)?;
    Ok(text)
}

/// The picture by these parts.
fn draw_with(
    alloc: Global,
    before: Option<&ChainSet>,
    set: &ChainSet,
    verdict: &Verdict,
    shown: Extent,
    edges: &[Edge],
    parts: &Parts,
) -> Result<Vec<u8>, Memory>
    ensures { IfOk result (λ text. text.items ≡ picture_with shown
        (option_copied before.entry) set.now verdict.now edges.now parts.now) }
{
    let mut out = Vec::new(alloc);
    out.extend_from_slice(head_text())?;
    out.extend_from_slice(caption(shown, verdict))?;
    out.extend_from_slice(changed_caption(before))?;
    out.extend_from_slice(legend_text())?;
    put_shown_programs(alloc, &mut out, set, edges, parts)?;
    out.extend_from_slice(conflict_style())?;
    put_shown_conflicts(alloc, &mut out, set, edges, parts)?;
    out.extend_from_slice(style_of(verdict))?;
    put_steps(alloc, &mut out, set, parts.steps.as_slice())?;
    put_marks_since(alloc, &mut out, before, set, edges, parts)?;
    out.extend_from_slice(b"}\n".as_slice())?;
    Ok(out)
}
