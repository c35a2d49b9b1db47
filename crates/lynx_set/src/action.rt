ghost use Rattle.std.specs.Prelude.{◌≡◌};
ghost use Rattle.lynx_set.specs.Lookups.{binds, cell_of};

use lynx_names::{Memory, TableId, TryCopy};
use std::alloc::Global;

/// The key of a cell: a number, or a parameter of the program, by its place.
#[derive(Clone, Copy, Debug, PartialEq, Eq)]
pub enum Key {
    Literal(u64),
    Param(u8),
}

/// A value: a number, or a name of the program, by its place: parameters first, then bound names in
/// order.
#[derive(Clone, Copy, Debug, PartialEq, Eq)]
pub enum Operand {
    Number(u64),
    Name(u8),
}

/// What `let` does with its two values, modulo 2^64.
#[derive(Clone, Copy, Debug, PartialEq, Eq)]
pub enum Operator {
    Plus,
    Minus,
}

/// What `need` asks of its two values.
#[derive(Clone, Copy, Debug, PartialEq, Eq)]
pub enum Relation {
    Below,
    AtMost,
    Same,
    Differs,
    AtLeast,
    Above,
}

/// What changes a cell: `set` to the value, `add` and `sub` by it, modulo 2^64, `max` to the value
/// where that is greater. `max` is of version 2.
#[derive(Clone, Copy, Debug, PartialEq, Eq)]
pub enum Update {
    Set,
    Add,
    Sub,
    Max,
}

/// One line of a hop. `Get` and `Let` bind the next name.
#[derive(Clone, Copy, Debug, PartialEq, Eq)]
pub enum Action {
    Get {
        table: TableId,
        key: Key,
    },
    Update {
        update: Update,
        table: TableId,
        key: Key,
        value: Operand,
    },
    Let {
        left: Operand,
        operator: Operator,
        right: Operand,
    },
    Need {
        left: Operand,
        relation: Relation,
        right: Operand,
    },
}

impl Action {
    /// The table and the key of the cell that the action touches. None for `let` and `need`.
    pub fn cell(&self) -> Option<(TableId, Key)>
        ensures { result ≡ cell_of self.now }
    {
        match *self {
            Action::Get { table, key } | Action::Update { table, key, .. } => Some((table, key)),
            Action::Let { .. } | Action::Need { .. } => None,
        }
    }

    /// Whether the action binds a name, to which it gives a value. `get` and `let` do.
    pub fn binds(&self) -> bool
        ensures { result ≡ binds self.now }
    {
        matches!(self, Action::Get { .. } | Action::Let { .. })
    }
}

impl TryCopy for Action {
    fn copy(&self, _alloc: Global) -> Result<Action, Memory> {
        Ok(*self)
    }
}
