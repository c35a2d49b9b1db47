//! The laws of writing a cell, each the contract of a function that does nothing. A cell is a pair
//! of a table and a key. `proofs/Writes.antt` has the lemmas.
ghost use Rattle.std.specs.Prelude.{◌≡◌, ◌≢◌, ℕ};
ghost use Rattle.lynx_cells.specs.Database.{Database, IsZeroFree, value_at, with_value};

/// A cell that was written holds what was written.
pub fn read_back()
    ensures { (db : Database) (table key value : ℕ) → value_at
        (with_value db table key value) table key ≡ value }
{}

/// A write leaves each other cell as it was.
pub fn read_elsewhere()
    ensures { (db : Database) (written other : ℕ × ℕ) (value : ℕ) → other ≢ written
        → value_at (with_value db written.0 written.1 value) other.0 other.1
        ≡ value_at db other.0 other.1 }
{}

/// Writes of two different cells change places.
pub fn writes_change_places()
    ensures { (db : Database) (a b : ℕ × ℕ) (x y : ℕ) → a ≢ b
        → with_value (with_value db a.0 a.1 x) b.0 b.1 y
        ≡ with_value (with_value db b.0 b.1 y) a.0 a.1 x }
{}

/// A later write of the same cell wins.
pub fn later_write_wins()
    ensures { (db : Database) (table key first second : ℕ) → with_value
        (with_value db table key first) table key second ≡ with_value db table key second }
{}

/// A write leaves no cell kept at 0.
pub fn write_keeps_zero_free()
    ensures { (db : Database) (table key value : ℕ) → IsZeroFree db
        → IsZeroFree (with_value db table key value) }
{}
