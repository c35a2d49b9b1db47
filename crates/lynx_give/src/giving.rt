//! The stores of a folder given to a set, from the first look to the last line.
ghost use Rattle.std.specs.Prelude.{OnOk};
ghost use Rattle.sqlite.specs.Held.{state};
ghost use Rattle.lynx_give.specs.Given.{HasGiven};

use crate::closing::close_all;
use crate::extending::extend_all;
use crate::fault::GiveFault;
use crate::looking::look_at_all;
use crate::making::make_all;
use lynx_keep::Keeper;
use lynx_set::ChainSet;
use lynx_sql::Rising;
use lynx_store_files::{Databases, Stores};
use sqlite::Connection;
use std::alloc::Global;
use std::io::Write;

/// Gives the stores of the folder to a set that extends theirs. All are opened and read before
/// anything is made, and the stores of new servers are made before an old one is changed: so after
/// a stop the next time goes on. Written is a line for each: `made N`, then `extended N ENTRIES`,
/// or `same N` of one that was of this very set. Each old store gets the set in one transaction.
/// Takes the memory of all that the greatest store holds.
pub fn give_stores<
    K: Keeper + Drop,
    D: Rising + Drop,
    S: Stores<K> + Databases<Connection<D>>,
    W: Write,
>(alloc: Global, stores: &S, folder: &str, set: &ChainSet, writer: &mut W) -> Result<(), GiveFault>
    ensures { OnOk result (HasGiven S.store_terms folder.now (λ conn. state D.Store conn)
        (S.opened_at folder.now) S.database_closed set.now (W.contents writer.old)
        (W.contents writer.new)) }
{
    let found = look_at_all(alloc, stores, folder, set)?;
    let made = make_all(alloc, stores, folder, set, found, writer)?;
    let given = extend_all(alloc, set, made, writer)?;
    close_all(stores, given)
}
