//! The laws of what hops do to a database, each the contract of a function that does nothing.
//! `specs/Acts.antt` has the words, `proofs/Commuting.antt` and `proofs/Framing.antt` the lemmas.
ghost use Rattle.std.specs.Prelude.{◌≡◌, ℕ};
ghost use Rattle.lynx_cells.specs.Database.{Database, IsZeroFree, value_at};
ghost use Rattle.lynx_set.specs.Set.{Set};
ghost use Rattle.lynx_foot.specs.Conflicts.{Conflicts};
ghost use Rattle.lynx_commute.specs.Acts.{Act, AgreeOn, ChangePlaces, IsUntouched, after, answer, touched};

/// Two hops that don't conflict change places: in either order each gives the results that it gives
/// alone, or is refused by the same need, and the last database is the same.
pub fn hops_without_conflict_change_places()
    ensures { (set : Set) (first second : Act) (db : Database)
        → ¬ Conflicts (touched set first) (touched set second)
        → ChangePlaces set first second db }
{}

/// What a hop answers, and what it leaves in the cells that it touches, follows from what these
/// cells hold.
pub fn touched_cells_decide()
    ensures answer { (set : Set) (act : Act) (left right : Database)
        → AgreeOn (touched set act) left right
        → answer set act left ≡ answer set act right }
    ensures cells { (set : Set) (act : Act) (left right : Database)
        → AgreeOn (touched set act) left right
        → AgreeOn (touched set act) (after set act left) (after set act right) }
{}

/// A hop leaves each cell that it doesn't touch as it was.
pub fn untouched_cells_stay()
    ensures { (set : Set) (act : Act) (db : Database) (table key : ℕ)
        → IsUntouched (touched set act) (table, key)
        → value_at (after set act db) table key ≡ value_at db table key }
{}

/// A hop leaves no cell kept at 0.
pub fn hops_keep_zero_free()
    ensures { (set : Set) (act : Act) (db : Database) → IsZeroFree db
        → IsZeroFree (after set act db) }
{}
