//! Upgrades a store to version 2, and says so.
ghost use Rattle.std.specs.Prelude.{◌≡◌, ◌≢◌, ◌≤◌, ℕ, IfErr, OnErr, OnOk};
ghost use Rattle.std.specs.Io.KnownBytes.{Appends, Keeps};
ghost use Rattle.sqlite_trees.specs.View.{doubt};
ghost use Rattle.sqlite.specs.Held.{state};
ghost use Rattle.sqlite.specs.Tree.{Trees};
ghost use Rattle.lynx_lines.specs.Written.{AppendsPart};
ghost use Rattle.lynx_keep.specs.Kept.{KeptState};
ghost use Rattle.lynx_store.specs.Premise.{IsUndisturbed};
ghost use Rattle.lynx_store.specs.Stored.{IsKept, Owner};
ghost use Rattle.lynx_store.specs.Upgrades.{IsFirst, LeavesUpgraded};
ghost use Rattle.lynx_sql.specs.declared.version.StoreVersion.{StoreVersion};
ghost use Rattle.lynx_show.specs.Upgraded.{BeginsTelling, TellsUpgrade, upgraded_line};

use crate::fault::ShowFault;
use itoa::Buffer;
use lynx_lines::{WriteFailed, write_bytes};
use lynx_sql::Rising;
use lynx_store::upgrade_store;
use sqlite::Connection;
use std::alloc::Global;
use std::io::Write;

/// Writes the line of an upgrade. It takes no memory: the store is upgraded by then.
fn write_upgraded<W: Write>(count: usize, writer: &mut W) -> Result<(), WriteFailed>
    ensures all { OnOk result
        (Appends (W.contents writer.old) (W.contents writer.new) (upgraded_line count)) }
    ensures part { OnErr result
        (AppendsPart (W.contents writer.old) (W.contents writer.new) (upgraded_line count)) }
{
    let mut digits = Buffer::new();
    write_bytes(writer, b"upgraded ")?;
    write_bytes(writer, digits.format(count).as_bytes())?;
    write_bytes(writer, b"\n")?;
    Ok(())
}

/// Whether a store can be upgraded, by reading alone: where it can't, [`upgrade_and_tell`] answers
/// the same fault. Takes the memory of all that the store holds.
pub fn check_upgrade<S: Rising>(alloc: Global, conn: &mut Connection<S>) -> Result<(), ShowFault>
    ensures clean { doubt (state S.Store conn.old).is_clean
        ≤ doubt (state S.Store conn.new).is_clean }
    ensures ok { IsUndisturbed (state S.Store conn.new)
        → OnOk result (IsFirst (state S.Store conn.new)) }
    // A stop leaves what it could leave before.
    ensures stop { IsUndisturbed (state S.Store conn.new) → (db : Trees)
        → (state S.Store conn.new).may_leave db → (state S.Store conn.old).may_leave db }
{
    lynx_store::check_upgrade(alloc, conn)?;
    Ok(())
}

/// Makes a store of version 1 one of version 2, and writes the line `upgraded N`, N the count of
/// its entries. No server may have the store open. Damaged, before anything is written, also where
/// a cell is of a table that the set hasn't, or a hop is that of two entries. After Store it is as
/// it was or upgraded, whole; after Write it is upgraded, and after every other fault as it was.
/// Takes the memory of all that it holds.
pub fn upgrade_and_tell<S: Rising, W: Write>(
    alloc: Global,
    conn: &mut Connection<S>,
    writer: &mut W,
) -> Result<(), ShowFault>
    ensures clean { doubt (state S.Store conn.old).is_clean
        ≤ doubt (state S.Store conn.new).is_clean }
    ensures ok { IsUndisturbed (state S.Store conn.new) → OnOk result
        (TellsUpgrade (state S.Store conn.old) (state S.Store conn.new) (W.contents writer.old)
        (W.contents writer.new)) }
    // A fault but that of writing comes before anything is written.
    ensures unwritten { IfErr result (λ fault. fault ≢ ShowFault.Write
        → Keeps (W.contents writer.old) (W.contents writer.new)) }
    ensures part { IsUndisturbed (state S.Store conn.new)
        → IfErr result (λ fault. fault ≡ ShowFault.Write
        → BeginsTelling (state S.Store conn.old) (state S.Store conn.new) (W.contents writer.old)
        (W.contents writer.new)) }
    ensures same { IsUndisturbed (state S.Store conn.new)
        → IfErr result (λ fault. fault ≢ ShowFault.Write → fault ≢ ShowFault.Store
        → (owner : Owner) (count : ℕ) (kept : KeptState)
        → IsKept (state S.Store conn.old) owner count kept
        → IsKept (state S.Store conn.new) owner count kept) }
    // A store of version 1 is called of no other.
    ensures other { IsUndisturbed (state S.Store conn.new)
        → IfErr result (λ fault. fault ≡ ShowFault.OtherVersion
        → (owner : Owner) (count : ℕ) (kept : KeptState)
        → IsKept (state S.Store conn.old) owner count kept
        → owner.version ≡ StoreVersion.Two) }
    // A stop leaves the store as it was, or upgraded.
    ensures stop { IsUndisturbed (state S.Store conn.new)
        → LeavesUpgraded (state S.Store conn.old) (state S.Store conn.new) }
{
    let count = upgrade_store(alloc, conn)?;
    write_upgraded(count, writer)?;
    Ok(())
}
