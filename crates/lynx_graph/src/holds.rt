ghost use Rattle.std.specs.Prelude.{◌≡◌, ◌↔◌, IsTrue, not, ◌==◌};
ghost use Rattle.std.specs.List.{list_any};
ghost use Rattle.lynx_graph.specs.Walks.{IsOffending};
ghost use Rattle.lynx_graph.specs.inner.Tests.{crosses, differs, is_closed, joins_around, joins_next, leaves_origin, offends};

use crate::meeting::{Place, joins, same_server};
use crate::visit::{Visit, Walk};
use lynx_names::ServerId;
use lynx_set::ChainSet;

/// Whether the hop by which the visit is left may conflict with the hop at which the next is
/// entered.
fn joins_next(set: &ChainSet, visit: &Visit, next: &Visit) -> bool
    ensures { result ≡ joins_next set.now visit.now next.now }
{
    let left = Place {
        program: visit.program,
        hop: visit.left,
    };
    let entered = Place {
        program: next.program,
        hop: next.entered,
    };
    joins(set, &left, &entered)
}

/// Whether each visit joins the one after it, and the last joins the first.
fn joins_around(set: &ChainSet, first: &Visit, rest: &[Visit]) -> bool
    ensures { result ≡ joins_around set.now first.now first.now rest.now }
{
    let mut visit = first;
    for next in rest {
        if !joins_next(set, visit, next) {
            return false;
        }
        visit = next;
    }
    joins_next(set, visit, first)
}

fn is_closed(set: &ChainSet, walk: &[Visit]) -> bool
    ensures { result ≡ is_closed set.now walk.now }
{
    match walk {
        [first, rest @ ..] => !rest.is_empty() && joins_around(set, first, rest),
        [] => false,
    }
}

fn crosses(visit: &Visit) -> bool
    ensures { result ≡ crosses visit.now }
{
    visit.entered != visit.left
}

fn differs(set: &ChainSet, origin: Option<ServerId>, visit: &Visit) -> bool
    ensures { result ≡ differs set.now origin visit.now }
{
    !same_server(set.origin(visit.program), origin)
}

fn some_differs(set: &ChainSet, origin: Option<ServerId>, visits: &[Visit]) -> bool
    ensures { result ≡ list_any (differs set.now origin) visits.now }
{
    visits.iter().any(|visit| differs(set, origin, visit))
}

fn some_crosses(visits: &[Visit]) -> bool
    ensures { result ≡ list_any crosses visits.now }
{
    visits.iter().any(|visit| crosses(visit))
}

/// Whether some visit's program has another origin than the first one's.
fn leaves_origin(set: &ChainSet, walk: &[Visit]) -> bool
    ensures { result ≡ leaves_origin set.now walk.now }
{
    match walk {
        [first, rest @ ..] => some_differs(set, set.origin(first.program), rest),
        [] => false,
    }
}

fn offends(set: &ChainSet, walk: &[Visit]) -> bool
    ensures { result ≡ offends set.now walk.now }
{
    is_closed(set, walk) && some_crosses(walk) && leaves_origin(set, walk)
}

/// Whether the walk is closed and offends: of two visits or more, each joins the next and the last
/// the first, some visit is left by another hop than it was entered at, and two are of programs of
/// different origins. It takes no memory.
pub fn walk_holds(set: &ChainSet, walk: &Walk) -> bool
    ensures { IsTrue result ↔ IsOffending set.now walk.now }
{
    offends(set, walk.as_slice())
}
