//! The hops of a changed set that are changed.

ghost use Rattle.std.specs.Prelude.{◌≡◌, ◌<◌, ◌^◌, ◌+◌, IfOk, option_copied};
ghost use Rattle.lynx_names.specs.declared.limits.TheConstants.{MAX_ACTIONS};
ghost use Rattle.lynx_set.specs.Text.{bound_in};
ghost use Rattle.lynx_draw.specs.Changes.{are_alike, changed_hops, face_of, faces_of, is_alike, is_unlike, program_named, unlike_hops};

use crate::nodes::put_actions;
use lynx_lex::Name;
use lynx_names::{Items, Memory, ProgramId, ServerId};
use lynx_set::{ChainSet, Hop, Program};
use std::alloc::Global;

/// What a hop's node shows of it: its server and the lines of its actions.
#[derive(Drop)]
pub(crate) struct Face {
    pub server: ServerId,
    pub lines: Items<u8>,
}

/// The program of that name.
fn program_named<'a>(set: &'a ChainSet, name: &Name) -> Option<&'a Program>
    ensures { option_copied result ≡ program_named set.now name.now }
{
    let place = set.place_of_program(name)?;
    let (_, program) = set.programs().get_index(place)?;
    Some(program)
}

/// The face of a hop, whose first binding action binds the name at that place, and the next place.
fn face_of(
    alloc: Global,
    tables: &[Name],
    names: &[Name],
    place: usize,
    hop: &Hop,
) -> Result<(Face, usize), Memory>
    requires { place + MAX_ACTIONS < 2 ^ 64 }
    ensures face { IfOk result (λ read. read.0 ≡ face_of tables.now names.now place hop.now) }
    ensures next { IfOk result (λ read. read.1 ≡ place + bound_in hop.now.actions) }
{
    let mut lines = Vec::new(alloc);
    let next = put_actions(alloc, &mut lines, tables, names, place, hop)?;
    let face = Face {
        server: hop.server,
        lines: Items::from_vec(lines),
    };
    Ok((face, next))
}

/// The faces of a program's hops, none where there is no program.
fn faces_of(alloc: Global, set: &ChainSet, program: Option<&Program>) -> Result<Items<Face>, Memory>
    ensures { IfOk result (λ faces. faces ≡ faces_of set.now (option_copied program.entry)) }
{
    let mut faces = Items::new(alloc);
    let Some(program) = program else {
        return Ok(faces);
    };
    let tables = set.tables().as_slice();
    let names = program.names.as_slice();
    let hops = program.hops.as_slice();
    let mut place = program.parameters;
    for hop in hops {
        let (face, next) = face_of(alloc, tables, names, place, hop)?;
        faces.push(face)?;
        place = next;
    }
    Ok(faces)
}

/// Whether two hops are at one server, with the same lines of actions.
fn is_alike(left: &Face, right: &Face) -> bool
    ensures { result ≡ is_alike left.now right.now }
{
    left.server == right.server && left.lines.as_slice() == right.lines.as_slice()
}

/// Whether there are two hops, and they are alike.
fn are_alike(left: Option<&Face>, right: Option<&Face>) -> bool
    ensures { result ≡ are_alike (option_copied left.entry) (option_copied right.entry) }
{
    match (left, right) {
        (Some(left), Some(right)) => is_alike(left, right),
        _ => false,
    }
}

/// Whether the hop of that number isn't like the one of the same number before.
fn is_unlike(before: &[Face], faces: &[Face], hop: usize) -> bool
    ensures { result ≡ is_unlike before.now faces.now hop }
{
    !are_alike(before.get(hop), faces.get(hop))
}

/// The numbers of such hops.
fn unlike_hops(alloc: Global, before: &[Face], faces: &[Face]) -> Result<Vec<usize>, Memory>
    ensures { IfOk result (λ hops. hops.items ≡ unlike_hops before.now faces.now) }
{
    let hops = (0..faces.len())
        .filter(|hop| is_unlike(before, faces, *hop))
        .collect(alloc)?;
    Ok(hops)
}

/// The changed hops of a program: a hop is changed unless the program of the same name in the set
/// before has one like it at the same number.
pub(crate) fn changed_hops(
    alloc: Global,
    before: &ChainSet,
    set: &ChainSet,
    program: ProgramId,
) -> Result<Vec<usize>, Memory>
    ensures { IfOk result (λ hops. hops.items ≡ changed_hops before.now set.now program) }
{
    let Some((name, found)) = set.programs().get_index(program.index()) else {
        return Ok(Vec::new(alloc));
    };
    let earlier = faces_of(alloc, before, program_named(before, name))?;
    let faces = faces_of(alloc, set, Some(found))?;
    let hops = unlike_hops(alloc, earlier.as_slice(), faces.as_slice())?;
    Ok(hops)
}
