//! Which servers a program visits, and in which hops.
ghost use Rattle.std.specs.Prelude.{◌≡◌};
ghost use Rattle.lynx_rules.specs.Visits.{MarksVisits, is_origin, visits, visited, is_last_at};

use lynx_names::limits::MAX_SERVERS;
use lynx_names::{ProgramId, ServerId, ServerList};
use lynx_set::{ChainSet, Hop};

const SERVERS: usize = MAX_SERVERS as usize;

/// The server is the program's origin: that of its first hop.
pub(crate) fn is_origin(set: &ChainSet, program: ProgramId, server: ServerId) -> bool
    ensures { result ≡ is_origin set.now program server }
{
    match set.hops(program) {
        [] => false,
        [hop, ..] => hop.server == server,
    }
}

/// One of these hops is at the server.
pub(crate) fn visits(hops: &[Hop], server: ServerId) -> bool
    ensures { result ≡ visits hops.now server }
{
    hops.iter().any(|hop| hop.server == server)
}

/// The hop of the program is at the server, and no later one is.
pub fn is_last_at(set: &ChainSet, server: ServerId, program: ProgramId, hop: usize) -> bool
    ensures { result ≡ is_last_at set.now server program hop }
{
    match set.hops(program).get(hop..) {
        Some([hop, later @ ..]) => hop.server == server && !visits(later, server),
        _ => false,
    }
}

/// For each server whether one of these hops is there.
fn visit_marks(hops: &[Hop]) -> [bool; SERVERS]
    ensures { MarksVisits hops.now result }
{
    let mut marks = [false; SERVERS];
    for hop in hops {
        marks[hop.server.index()] = true;
    }
    marks
}

/// The servers that the program visits, rising. One look at each hop; takes no memory.
pub fn visited(set: &ChainSet, program: ProgramId) -> ServerList
    ensures { result ≡ visited set.now program }
{
    ServerList::marked(&visit_marks(set.hops(program)))
}
