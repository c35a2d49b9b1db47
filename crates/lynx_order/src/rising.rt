//! Whether ranks rise along the touches of each cell.
ghost use Rattle.std.specs.Prelude.{◌≡◌, ◌↔◌, IsTrue, IfSome};
ghost use Rattle.lynx_order.specs.inner.Certificates.{MayFollow, IsCounted, IsNoLater, IsOfCell, Rise, rank_at};

use crate::search::ChainTouch;
use lynx_foot::Kind;

/// The greatest rank of the chains that touched a cell in each way, 0 where none did.
#[derive(Clone, Copy)]
struct Greatest {
    getting: usize,
    setting: usize,
    adding: usize,
    raising: usize,
}

impl Greatest {
    ghost use Rattle.std.specs.Prelude.{◌≤◌, not};
    ghost use Rattle.lynx_foot.specs.declared.kind.Kind.{Kind as AnyKind};
    ghost use Rattle.lynx_foot.specs.Kinds.{commute};
    ghost use Rattle.lynx_order.specs.inner.Certificates.{greatest_of, with_rank};

    fn none() -> Greatest {
        Greatest {
            getting: 0,
            setting: 0,
            adding: 0,
            raising: 0,
        }
    }

    /// With the rank of a chain that touched the cell in that way too.
    fn with(self, kind: Kind, rank: usize) -> Greatest
        ensures { result ≡ with_rank self kind rank }
    {
        match kind {
            Kind::Getting => Greatest {
                getting: self.getting.max(rank),
                ..self
            },
            Kind::Setting => Greatest {
                setting: self.setting.max(rank),
                ..self
            },
            Kind::Adding => Greatest {
                adding: self.adding.max(rank),
                ..self
            },
            Kind::Raising => Greatest {
                raising: self.raising.max(rank),
                ..self
            },
        }
    }

    /// The greatest rank of the chains that touched the cell in that way.
    fn of(self, kind: Kind) -> usize
        ensures { result ≡ greatest_of self kind }
    {
        match kind {
            Kind::Getting => self.getting,
            Kind::Setting => self.setting,
            Kind::Adding => self.adding,
            Kind::Raising => self.raising,
        }
    }

    /// Whether a touch of the one kind, of a chain of that rank, may stand behind those of the
    /// other.
    fn passes(self, other: Kind, kind: Kind, rank: usize) -> bool
        ensures { IsTrue result → IsTrue (not (commute other kind))
            → greatest_of self other ≤ rank }
    {
        other.commutes(kind) || self.of(other) <= rank
    }

    /// Whether no rank of a way that doesn't commute with that one is above this rank.
    fn allows(self, kind: Kind, rank: usize) -> bool
        ensures { IsTrue result → (other : AnyKind) → IsTrue (not (commute other kind))
            → greatest_of self other ≤ rank }
    {
        self.passes(Kind::Getting, kind, rank)
            && self.passes(Kind::Setting, kind, rank)
            && self.passes(Kind::Adding, kind, rank)
            && self.passes(Kind::Raising, kind, rank)
    }
}

fn is_of_cell(one: &ChainTouch, other: &ChainTouch) -> bool
    ensures { IsTrue result ↔ IsOfCell one.now other.now }
{
    one.touch.table == other.touch.table && one.touch.key == other.touch.key
}

/// Whether the one touch is not behind the other by table, then key, then place in the list.
fn is_no_later(one: &ChainTouch, other: &ChainTouch) -> bool
    ensures { IsTrue result ↔ IsNoLater one.now other.now }
{
    let (table, next_table) = (one.touch.table.number(), other.touch.table.number());
    let (key, next_key) = (one.touch.key, other.touch.key);
    table < next_table
        || table == next_table && (key < next_key || key == next_key && one.place <= other.place)
}

/// The rank of the touch's chain, 0 where it has none.
fn rank_of(ranks: &[usize], touch: &ChainTouch) -> usize
    ensures { result ≡ rank_at ranks.now touch.now }
{
    ranks.get(touch.chain).copied().unwrap_or(0)
}

/// The last touch of those that were gone over, and the greatest ranks of its cell.
#[derive(Clone, Copy)]
struct Sweep {
    last: ChainTouch,
    greatest: Greatest,
}

impl Sweep {
    fn first(ranks: &[usize], touch: &ChainTouch) -> Sweep
        ensures last { result.last ≡ touch.now }
        ensures own { IsCounted ranks.now result touch.now }
    {
        let rank = rank_of(ranks, touch);
        Sweep {
            last: *touch,
            greatest: Greatest::none().with(touch.touch.kind, rank),
        }
    }

    /// The sweep behind the next touch, if that one may come here.
    fn next(self, ranks: &[usize], touch: &ChainTouch) -> Option<Sweep>
        ensures { IfSome result (λ next. MayFollow ranks.now self next touch.now) }
    {
        if !is_no_later(&self.last, touch) {
            return None;
        }
        let rank = rank_of(ranks, touch);
        if !is_of_cell(&self.last, touch) {
            return Some(Sweep::first(ranks, touch));
        }
        if !self.greatest.allows(touch.touch.kind, rank) {
            return None;
        }
        Some(Sweep {
            last: *touch,
            greatest: self.greatest.with(touch.touch.kind, rank),
        })
    }
}

/// Whether the touches stand in order, and no touch collides with an earlier one whose chain has a
/// greater rank.
pub(crate) fn rise(ranks: &[usize], touches: &[ChainTouch]) -> bool
    ensures { IsTrue result → Rise ranks.now touches.now }
{
    let Some((first, rest)) = touches.split_first() else {
        return true;
    };
    let mut sweep = Sweep::first(ranks, first);
    for touch in rest {
        match sweep.next(ranks, touch) {
            Some(next) => sweep = next,
            None => return false,
        }
    }
    true
}
