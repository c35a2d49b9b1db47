//! What might mend an offending set, in words.

ghost use Rattle.std.specs.Prelude.{◌≡◌};
ghost use Rattle.lynx_graph.specs.Edges.{edges_of};
ghost use Rattle.lynx_set.specs.Lookups.{actions_at};
ghost use Rattle.lynx_set.specs.Rules.{IsSet};

use crate::hop_lines::line_of;
use crate::never::action_line;
use crate::never::first::NeverAt;
use lynx_foot::{Foot, Kind, Reach, reach_of, reaches_may_collide};
use lynx_graph::{Edge, Place, conflict_edges, program_of};
use lynx_late::hops_abroad;
use lynx_names::{Memory, ProgramId};
use lynx_set::{Action, ChainSet, Key, Name};
use lynx_text::printing::put_word;
use std::alloc::Global;

/// How many changes are told, at most.
const MAX_MENDS: usize = 3;

/// An action that touches a cell: its program, its line in the set's text, and what it does.
#[derive(Clone, Copy)]
struct Site {
    program: ProgramId,
    line: usize,
    foot: Foot,
}

/// An action of a hop, and one of a program of another origin with which it may collide.
#[derive(Clone, Copy)]
struct Pair {
    own: Site,
    other: Site,
}

/// A hop that reaches abroad, and the hops that it meets there.
#[derive(Drop)]
struct End {
    place: Place,
    abroad: Vec<Place>,
}

/// A change of a program in words, and how many hops abroad a hop of its no longer meets by it.
#[derive(Drop)]
struct Mend {
    ended: usize,
    program: ProgramId,
    words: String,
}

fn foot_of(action: &Action) -> Option<Foot> {
    let (table, key) = action.cell()?;
    let kind = match *action {
        Action::Update { update, .. } => Kind::of(update),
        _ => Kind::Getting,
    };
    Some(Foot { table, key, kind })
}

fn actions_of(set: &ChainSet, place: Place) -> &[Action]
    ensures { result.now ≡ actions_at set.now place.program place.hop }
{
    match set.hop(place.program, place.hop) {
        Some(hop) => hop.actions.as_slice(),
        None => &[],
    }
}

/// The actions of a hop that touch cells.
fn sites(alloc: Global, set: &ChainSet, place: Place) -> Result<Vec<Site>, Memory>
    requires { IsSet set.now }
{
    let program = place.program;
    let hop = place.hop;
    let mut sites = Vec::new(alloc);
    for (action, step) in actions_of(set, place).iter().enumerate() {
        if let Some(foot) = foot_of(step) {
            let line = action_line(set, program, NeverAt { hop, action });
            sites.push(Site {
                program,
                line,
                foot,
            })?;
        }
    }
    Ok(sites)
}

fn reach(set: &ChainSet, site: &Site) -> Reach {
    reach_of(set.ranges(site.program), site.foot)
}

/// What the hop's actions may collide with abroad.
fn pairs(alloc: Global, set: &ChainSet, end: &End) -> Result<Vec<Pair>, Memory>
    requires { IsSet set.now }
{
    let owns = sites(alloc, set, end.place)?;
    let mut pairs = Vec::new(alloc);
    for hop in end.abroad.as_slice() {
        let others = sites(alloc, set, *hop)?;
        for own in owns.as_slice() {
            for other in others.as_slice() {
                if reaches_may_collide(reach(set, own), reach(set, other)) {
                    pairs.push(Pair {
                        own: *own,
                        other: *other,
                    })?;
                }
            }
        }
    }
    Ok(pairs)
}

/// Whether both keys are parameters, and not each of them has a range.
fn is_open(set: &ChainSet, pair: &Pair) -> bool {
    matches!(pair.own.foot.key, Key::Param(_))
        && matches!(pair.other.foot.key, Key::Param(_))
        && (reach(set, &pair.own).keys.is_none() || reach(set, &pair.other).keys.is_none())
}

/// The `set` of the two, where the other is an `add` or a `sub`.
fn set_of(pair: &Pair) -> Option<Site> {
    match (pair.own.foot.kind, pair.other.foot.kind) {
        (Kind::Setting, Kind::Adding) => Some(pair.own),
        (Kind::Adding, Kind::Setting) => Some(pair.other),
        _ => None,
    }
}

fn parameter_of(set: &ChainSet, site: Site) -> Option<&Name> {
    match site.foot.key {
        Key::Param(parameter) => {
            let names = set.program(site.program)?.names.as_slice();
            names.get(usize::from(parameter))
        }
        Key::Literal(_) => None,
    }
}

/// Ranges of the two parameters, None where not both keys are parameters.
fn ranges_words(alloc: Global, set: &ChainSet, pair: &Pair) -> Result<Option<String>, Memory> {
    let names = (parameter_of(set, pair.own), parameter_of(set, pair.other));
    let (Some(own), Some(other)) = names else {
        return Ok(None);
    };
    let (at, there) = (pair.own.line, pair.other.line);
    let words = format!(in alloc;
        "a range of {own} on line {at} and of {other} on line {there} that don't meet"
    )?;
    Ok(Some(words))
}

/// What might keep these from colliding, by the first of them: the program to change, and how.
fn change_of(
    alloc: Global,
    set: &ChainSet,
    pairs: &[Pair],
    first: &Pair,
) -> Result<(ProgramId, String), Memory> {
    let own = first.own;
    if pairs.iter().all(|pair| is_open(set, pair)) {
        if let Some(words) = ranges_words(alloc, set, first)? {
            return Ok((own.program, words));
        }
    }
    if pairs.iter().all(|pair| set_of(pair).is_some()) {
        let site = set_of(first).unwrap_or(own);
        let words = format!(in alloc; "an add in place of the set on line {}", site.line)?;
        return Ok((site.program, words));
    }
    let words = format!(in alloc; "a table of its own for line {}", own.line)?;
    Ok((own.program, words))
}

/// Whether both hops are at one server, this one before the other.
fn stands_before(set: &ChainSet, end: &End, later: Place) -> bool {
    let own = set.hop(end.place.program, end.place.hop);
    match (own, set.hop(later.program, later.hop)) {
        (Some(own), Some(other)) => end.place.hop < later.hop && own.server == other.server,
        _ => false,
    }
}

/// The later hop as a part of the earlier one.
fn join_words(alloc: Global, set: &ChainSet, earlier: Place, later: Place) -> Result<String, Memory>
    requires { IsSet set.now }
{
    let (to, from) = (line_of(set, &earlier), line_of(set, &later));
    let words = if earlier.hop == 0 {
        format!(in alloc; "move line {from} into its first hop")?
    } else {
        format!(in alloc; "one hop of lines {to} and {from}")?
    };
    Ok(words)
}

/// What might be changed of a hop that reaches abroad, as these of its program do.
fn mend_of(alloc: Global, set: &ChainSet, ends: &[End], end: &End) -> Result<Option<Mend>, Memory>
    requires { IsSet set.now }
{
    let earlier = ends
        .iter()
        .find(|earlier| stands_before(set, earlier, end.place));
    if let Some(earlier) = earlier {
        return Ok(Some(Mend {
            ended: 0,
            program: end.place.program,
            words: join_words(alloc, set, earlier.place, end.place)?,
        }));
    }
    let pairs = pairs(alloc, set, end)?;
    let Some(first) = pairs.first() else {
        return Ok(None);
    };
    let (program, words) = change_of(alloc, set, pairs.as_slice(), first)?;
    Ok(Some(Mend {
        ended: end.abroad.len(),
        program,
        words,
    }))
}

/// The hops of a program that reach abroad.
fn ends_of(
    alloc: Global,
    set: &ChainSet,
    edges: &[Edge],
    program: ProgramId,
) -> Result<Vec<End>, Memory>
    requires { edges.now ≡ edges_of set.now }
{
    let mut ends = Vec::new(alloc);
    for hop in 0..set.hops(program).len() {
        let place = Place { program, hop };
        let abroad = hops_abroad(alloc, set, edges, &place)?;
        if !abroad.is_empty() {
            ends.push(End { place, abroad })?;
        }
    }
    Ok(ends)
}

/// Adds what might be changed of a program that reaches abroad by two hops or more.
fn add_mends(
    alloc: Global,
    set: &ChainSet,
    edges: &[Edge],
    program: ProgramId,
    mends: &mut Vec<Mend>,
) -> Result<(), Memory>
    requires text { IsSet set.now }
    requires edges { edges.now ≡ edges_of set.now }
{
    let ends = ends_of(alloc, set, edges, program)?;
    if ends.len() < 2 {
        return Ok(());
    }
    for end in ends.as_slice() {
        if let Some(mend) = mend_of(alloc, set, ends.as_slice(), end)? {
            mends.push(mend)?;
        }
    }
    Ok(())
}

/// What might mend an offending set, a line for each of at most three changes, those first by which
/// the fewest hops abroad are no longer met. They are changes of programs that reach abroad by two
/// hops or more; where no program does, there are none. Nothing is promised of them: a hop may need
/// what stands before it, a `set` may be no mere change, of several cells only the first is named,
/// and a set so changed may offend still. For each hop it looks at each edge. Memory is answered
/// where a growth was refused.
pub fn mends(alloc: Global, set: &ChainSet) -> Result<Vec<u8>, Memory>
    requires { IsSet set.now }
{
    let edges = conflict_edges(alloc, set)?;
    let mut mends = Vec::new(alloc);
    for number in 0..set.programs().len() {
        add_mends(alloc, set, edges.as_slice(), program_of(number), &mut mends)?;
    }
    mends.sort_by_key(|mend| mend.ended)?;
    let mut out = Vec::new(alloc);
    for mend in mends.as_slice().iter().take(MAX_MENDS) {
        out.push(b' ')?;
        put_word(&mut out, set.program_name(mend.program))?;
        out.extend_from_slice(b": ".as_slice())?;
        out.extend_from_slice(mend.words.as_bytes())?;
        out.push(b'\n')?;
    }
    Ok(out)
}
