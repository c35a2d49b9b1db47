//! One change of a set, and what it costs.
ghost use Rattle.std.specs.Prelude.{◌≡◌, ◌≤◌, ◌↔◌, ◌<◌, IsTrue};
ghost use Rattle.lynx_mend.specs.Costs.{cost_of, order_cost};

use crate::marks::{ProgramMarks, TableMarks};
use lynx_names::{ProgramId, ServerId, TableId};
use lynx_set::Interval;

/// What a change costs below which it keeps all programs and each of their actions but one.
const LARGE: u32 = 40;

/// One change of a set. Programs and tables are numbered as in the set that is changed; hops,
/// places and actions are counted from 0.
#[derive(Clone, Copy, Debug, PartialEq, Eq)]
pub enum Change {
    /// The program runs that hop in another place. It began at one server, and begins at the other,
    /// which may be the same.
    Order {
        program: ProgramId,
        hop: usize,
        place: usize,
        before: ServerId,
        server: ServerId,
    },
    /// The program begins at the server, by a first hop that adds 0 to a cell there.
    Turn {
        program: ProgramId,
        server: ServerId,
        table: TableId,
        key: u64,
    },
    /// The program leaves out a `get` whose name it doesn't use.
    Drop {
        program: ProgramId,
        hop: usize,
        action: usize,
    },
    /// The server decides for the programs. They begin there, and do there all that they get and
    /// need, over a table beside each of the tables. So many of them began elsewhere.
    Decide {
        server: ServerId,
        programs: ProgramMarks,
        tables: TableMarks,
        moved: usize,
    },
    /// Two programs stand for one: its hops before that one, and the others.
    Cut {
        program: ProgramId,
        hop: usize,
    },
    /// The arguments of two parameters lie in ranges that don't meet.
    Range {
        program: ProgramId,
        parameter: u8,
        interval: Interval,
        other: ProgramId,
        other_parameter: u8,
        other_interval: Interval,
    },
    /// The program is left out.
    Leave {
        program: ProgramId,
    },
}

impl Change {
    /// What the change costs: the less, the smaller it is. A change of the order that keeps the
    /// server costs a little more than one that changes it.
    pub fn cost(&self) -> u32
        ensures value { result ≡ cost_of self.now }
        ensures few { result ≤ 80 }
    {
        match *self {
            Change::Order { before, server, .. } => order_cost(before, server),
            Change::Turn { .. } | Change::Drop { .. } => 30,
            Change::Decide { .. } => 40,
            Change::Cut { .. } => 50,
            Change::Range { .. } => 60,
            Change::Leave { .. } => 80,
        }
    }

    /// Whether it keeps all programs whole, and touches one of them alone: a change of the order, a
    /// turn or a drop.
    pub(crate) fn is_small(&self) -> bool
        ensures { IsTrue result ↔ (cost_of self.now < 40) }
    {
        self.cost() < LARGE
    }
}

/// What a change of the order costs.
fn order_cost(before: ServerId, server: ServerId) -> u32
    ensures value { result ≡ order_cost before server }
    ensures few { result ≤ 80 }
{
    if before == server { 21 } else { 20 }
}
