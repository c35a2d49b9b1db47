//! Lists a store.
ghost use Rattle.std.specs.Prelude.{◌≡◌, ◌≢◌, ◌≤◌, IfErr, OnOk, IfOk};
ghost use Rattle.std.specs.Io.KnownBytes.{Keeps};
ghost use Rattle.sqlite_trees.specs.View.{doubt};
ghost use Rattle.sqlite.specs.Tree.{Trees};
ghost use Rattle.sqlite.specs.Held.{state};
ghost use Rattle.lynx_store.specs.Premise.{IsUndisturbed};
ghost use Rattle.lynx_store.specs.Stored.{AreInTables};
ghost use Rattle.lynx_show.specs.Listing.{BeginsListing, Lists, listing_of};
ghost use Rattle.lynx_keep.specs.Kept.{kept_in};

use crate::detail::Detail;
use crate::fault::ShowFault;
use crate::listing::listing;
use lynx_lines::write_bytes;
use lynx_sql::Rising;
use lynx_store::{Inspected, are_in_tables, inspect};
use sqlite::Connection;
use std::alloc::Global;
use std::io::Write;

/// The lines of a store that was read.
fn lines_of(alloc: Global, held: &Inspected, detail: Detail) -> Result<Vec<u8>, ShowFault>
    ensures ok { IfOk result (λ text. text.items
        ≡ listing_of detail held.now.set held.now.server (kept_in held.now.loaded)) }
    ensures tables { OnOk result (AreInTables held.now.set held.now.loaded.cells.database) }
    ensures err { IfErr result (λ fault. fault ≢ ShowFault.Write) }
{
    let cells = held.loaded.cells.list(alloc)?;
    if !are_in_tables(&held.set, cells.as_slice()) {
        return Err(ShowFault::Damaged);
    }
    Ok(listing(alloc, held, detail, cells.as_slice())?)
}

/// Writes the server of a store, its entries and its cells that are not 0, a line each:
/// docs/FORMATS.md has their forms. The database is only read, and all of it before the first line
/// is written.
pub fn show_store<S: Rising, W: Write>(
    alloc: Global,
    conn: &mut Connection<S>,
    detail: Detail,
    writer: &mut W,
) -> Result<(), ShowFault>
    ensures clean { doubt (state S.Store conn.old).is_clean
        ≤ doubt (state S.Store conn.new).is_clean }
    // What is written is what the store holds.
    ensures ok { IsUndisturbed (state S.Store conn.new) → OnOk result
        (Lists detail (state S.Store conn.new) (W.contents writer.old) (W.contents writer.new)) }
    // A fault but that of writing comes before anything is written.
    ensures unwritten { IfErr result (λ fault. fault ≢ ShowFault.Write
        → Keeps (W.contents writer.old) (W.contents writer.new)) }
    ensures part { IsUndisturbed (state S.Store conn.new)
        → IfErr result (λ fault. fault ≡ ShowFault.Write
        → BeginsListing detail (state S.Store conn.new) (W.contents writer.old)
        (W.contents writer.new)) }
    // A stop leaves what it could leave before.
    ensures stop { IsUndisturbed (state S.Store conn.new) → (db : Trees)
        → (state S.Store conn.new).may_leave db → (state S.Store conn.old).may_leave db }
{
    let held = inspect(alloc, conn)?;
    let text = lines_of(alloc, &held, detail)?;
    write_bytes(writer, text.as_slice())?;
    Ok(())
}
