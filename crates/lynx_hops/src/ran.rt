ghost use Rattle.std.specs.Prelude.{◌≡◌};

use lynx_cells::Changes;
use lynx_names::Values;
use std::marker::Model;

/// A hop that ran: its results, and the changes that it makes. It must be spent, so that neither is
/// lost.
#[derive(Debug)]
pub struct Ran {
    results: Values,
    changes: Changes,
}

impl Model for Ran {
    ghost use Rattle.std.specs.Prelude.{ℕ, List};
    ghost use Rattle.std.specs.FinMap as map;
    ghost use Rattle.std.specs.Coded.{coded×, coded_ℕ, coded_list};
    ghost use Rattle.lynx_cells.specs.Database.{ChangeSet};

    ghost Value = { List ℕ × ChangeSet };

    ghost coded = { coded× (coded_list coded_ℕ) (map.code (coded× coded_ℕ coded_ℕ) coded_ℕ) };

    ghost view = { λ ran. (ran.results, ran.changes) };
}

impl Ran {
    /// The results, and the changes that are to be applied.
    pub fn spend(self) -> (Values, Changes)
        ensures results { result.0 ≡ self.0 }
        ensures changes { result.1 ≡ self.1 }
    {
        let Ran { results, changes } = self;
        (results, changes)
    }

    pub(crate) fn new(results: Values, changes: Changes) -> Ran
        ensures results { result.0 ≡ results }
        ensures changes { result.1 ≡ changes }
    {
        Ran { results, changes }
    }
}
