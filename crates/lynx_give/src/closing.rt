//! The stores of a folder are closed.
ghost use Rattle.std.specs.Prelude.{OnOk, is_ok, true};
ghost use Rattle.std.specs.List.{AllByRecursion};
ghost use Rattle.lynx_give.specs.Given.{IsLetGo};

use crate::fault::GiveFault;
use crate::store::Store;
use lynx_keep::Keeper;
use lynx_names::ServerId;
use lynx_names::limits::MAX_SERVERS;
use lynx_sql::Rising;
use lynx_store::StoreFault;
use lynx_store_files::{Databases, Stores};
use sqlite::Connection;

/// Closes a store: its log is copied into its file.
fn close<K: Keeper + Drop, D: Rising + Drop, S: Stores<K> + Databases<Connection<D>>>(
    stores: &S,
    store: Store<K, Connection<D>>,
) -> Result<(), StoreFault>
    ensures { IsLetGo S.store_terms.closed S.database_closed (is_ok result) store }
{
    match store {
        Store::Made(keeper) => stores.close(keeper),
        Store::Held(conn) => stores.close_database(conn),
    }
}

/// Closes all stores, in order, also behind one that fails. The first fault is told: all that is
/// kept stands.
pub(crate) fn close_all<
    K: Keeper + Drop,
    D: Rising + Drop,
    S: Stores<K> + Databases<Connection<D>>,
>(stores: &S, given: Vec<Store<K, Connection<D>>>) -> Result<(), GiveFault>
    ensures { OnOk result (AllByRecursion
        (IsLetGo S.store_terms.closed S.database_closed true) given.items) }
{
    let mut number: u8 = 0;
    let mut closed = Ok(());
    for store in given {
        let is_first = closed.is_ok();
        match close(stores, store) {
            Ok(()) => {}
            Err(fault) if is_first => {
                let server = ServerId::at(number.min(MAX_SERVERS - 1));
                closed = Err(GiveFault::of_store(server, fault));
            }
            Err(_) => {}
        }
        number = number.saturating_add(1);
    }
    closed
}
