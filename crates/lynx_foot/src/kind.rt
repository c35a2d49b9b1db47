ghost use Rattle.std.specs.Prelude.{◌≡◌};

use lynx_set::Update;

/// What an action does to its cell: `get` is Getting, `set` is Setting, `add` and `sub` are Adding,
/// `max` is Raising.
#[derive(Clone, Copy, Debug, PartialEq, Eq)]
pub enum Kind {
    Getting,
    Setting,
    Adding,
    Raising,
}

impl Kind {
    ghost use Rattle.lynx_foot.specs.Feet.{kind_of};
    ghost use Rattle.lynx_foot.specs.Kinds.{commute};

    /// What an update does to its cell.
    pub fn of(update: Update) -> Kind
        ensures { result ≡ kind_of update }
    {
        match update {
            Update::Set => Kind::Setting,
            Update::Add | Update::Sub => Kind::Adding,
            Update::Max => Kind::Raising,
        }
    }

    /// Whether two actions of these kinds on one cell may change places.
    pub fn commutes(self, other: Kind) -> bool
        ensures { result ≡ commute self other }
    {
        matches!(
            (self, other),
            (Kind::Getting, Kind::Getting)
                | (Kind::Adding, Kind::Adding)
                | (Kind::Raising, Kind::Raising)
        )
    }
}
