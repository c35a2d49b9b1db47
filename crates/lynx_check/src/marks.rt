//! From which hops a walk can be closed within so many further visits.
ghost use Rattle.std.specs.Prelude.{◌≡◌, IfOk};
ghost use Rattle.lynx_check.specs.inner.Marks.{first_marks, first_table, goes_on, is_abroad, is_goal, is_marked, leaves, leaving_marks, leaving_table, mark, mark_at, next_marks, next_table, some_marks};

use lynx_graph::meeting::same_server;
use lynx_graph::nodes::Node;
use lynx_names::{Items, Memory};
use std::alloc::Global;

/// Whether a walk can be closed from one hop, by what its visits so far did: whether one of them
/// was left by another hop than it was entered at, and whether one was of a program of another
/// origin.
#[derive(Clone, Copy, PartialEq, Eq)]
pub(crate) struct Marks {
    pub neither: bool,
    pub crossed: bool,
    pub abroad: bool,
    pub both: bool,
}

/// The marks of all hops, in the order of the nodes.
pub(crate) type Table = Items<Marks>;

impl Marks {
    fn at(self, crossed: bool, abroad: bool) -> bool
        ensures { result ≡ mark self crossed abroad }
    {
        match (crossed, abroad) {
            (false, false) => self.neither,
            (true, false) => self.crossed,
            (false, true) => self.abroad,
            (true, true) => self.both,
        }
    }
}

/// The mark of that node, false where there is none.
pub(crate) fn mark_at(table: &[Marks], node: usize, crossed: bool, abroad: bool) -> bool
    ensures { result ≡ mark_at table.now node crossed abroad }
{
    match table.get(node) {
        Some(marks) => marks.at(crossed, abroad),
        None => false,
    }
}

/// Whether the node is of a program of another origin than the start.
pub(crate) fn is_abroad(start: &Node, node: &Node) -> bool
    ensures { result ≡ is_abroad start.now node.now }
{
    !same_server(node.origin, start.origin)
}

/// Whether an arrival at the node closes the walk: the walk's first visit entered here and left at
/// the start.
fn is_goal(start: &Node, node: &Node, crossed: bool, abroad: bool) -> bool
    ensures { result ≡ is_goal start.now node.now crossed abroad }
{
    node.place.program == start.place.program
        && abroad
        && (crossed || node.place.hop != start.place.hop)
}

fn first_marks(start: &Node, node: &Node) -> Marks
    ensures { result ≡ first_marks start.now node.now }
{
    Marks {
        neither: is_goal(start, node, false, false),
        crossed: is_goal(start, node, true, false),
        abroad: is_goal(start, node, false, true),
        both: is_goal(start, node, true, true),
    }
}

/// Which arrivals close the walk with no further visit.
pub(crate) fn first_table(alloc: Global, nodes: &[Node], start: &Node) -> Result<Vec<Marks>, Memory>
    ensures { IfOk result (λ table. table.items ≡ first_table nodes.now start.now) }
{
    let marks = nodes
        .iter()
        .map(|node| first_marks(start, node))
        .collect(alloc)?;
    Ok(marks)
}

/// Whether some hop with which the node may conflict is marked.
pub(crate) fn leaves(table: &[Marks], node: &Node, crossed: bool, abroad: bool) -> bool
    ensures { result ≡ leaves table.now node.now crossed abroad }
{
    let neighbours = node.neighbours.as_slice();
    neighbours
        .iter()
        .any(|next| mark_at(table, *next, crossed, abroad))
}

fn is_marked(table: &[Marks], crossed: bool, abroad: bool) -> bool
    ensures { result ≡ is_marked table.now crossed abroad }
{
    table.iter().any(|marks| marks.at(crossed, abroad))
}

/// Which marks some hop of the table has.
fn some_marks(table: &[Marks]) -> Marks
    ensures { result ≡ some_marks table.now }
{
    Marks {
        neither: is_marked(table, false, false),
        crossed: is_marked(table, true, false),
        abroad: is_marked(table, false, true),
        both: is_marked(table, true, true),
    }
}

fn leaving_marks(table: &[Marks], some: &Marks, node: &Node) -> Marks
    ensures { result ≡ leaving_marks table.now some.now node.now }
{
    Marks {
        neither: some.neither && leaves(table, node, false, false),
        crossed: some.crossed && leaves(table, node, true, false),
        abroad: some.abroad && leaves(table, node, false, true),
        both: some.both && leaves(table, node, true, true),
    }
}

/// For each hop whether a walk that leaves by it arrives at a marked one. Neighbours are asked only
/// for marks that some hop has: in a set of one origin most are wanting.
fn leaving_table(alloc: Global, nodes: &[Node], table: &[Marks]) -> Result<Vec<Marks>, Memory>
    ensures { IfOk result (λ leaving. leaving.items ≡ leaving_table nodes.now table.now) }
{
    let some = some_marks(table);
    let marks = nodes
        .iter()
        .map(|node| leaving_marks(table, &some, node))
        .collect(alloc)?;
    Ok(marks)
}

/// Whether the program that was entered at the node may be left by a marked hop.
fn goes_on(leaving: &[Marks], start: &Node, node: &Node, crossed: bool, abroad: bool) -> bool
    ensures { result ≡ goes_on leaving.now start.now node.now crossed abroad }
{
    let abroad = abroad || is_abroad(start, node);
    let exits = node.exits.as_slice();
    exits.iter().any(|exit| {
        mark_at(
            leaving,
            exit.node,
            crossed || node.place.hop != exit.hop,
            abroad,
        )
    })
}

fn next_marks(leaving: &[Marks], start: &Node, node: &Node, marks: &Marks) -> Marks
    ensures { result ≡ next_marks leaving.now start.now node.now marks.now }
{
    Marks {
        neither: marks.neither || goes_on(leaving, start, node, false, false),
        crossed: marks.crossed || goes_on(leaving, start, node, true, false),
        abroad: marks.abroad || goes_on(leaving, start, node, false, true),
        both: marks.both || goes_on(leaving, start, node, true, true),
    }
}

/// Which arrivals close the walk within one more visit than the table's.
pub(crate) fn next_table(
    alloc: Global,
    nodes: &[Node],
    start: &Node,
    table: &[Marks],
) -> Result<Vec<Marks>, Memory>
    ensures { IfOk result (λ next. next.items ≡ next_table nodes.now start.now table.now) }
{
    let leaving = leaving_table(alloc, nodes, table)?;
    let leaving = leaving.as_slice();
    let marks = nodes
        .iter()
        .zip(table)
        .map(|(node, marks)| next_marks(leaving, start, node, marks))
        .collect(alloc)?;
    Ok(marks)
}
