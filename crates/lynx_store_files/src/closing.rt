//! Letting go of the keepers of all servers.
ghost use Rattle.std.specs.Prelude.{IfErr, OnOk};
ghost use Rattle.lynx_store_files.specs.Closed.{AreClosed, FailsAt};

use crate::stores::Stores;
use lynx_names::ServerId;
use lynx_names::limits::MAX_SERVERS;
use lynx_store::StoreFault;

/// Lets go of the keepers, server 0's first, also behind one that fails: all that was kept stands.
/// The first fault is told, with its server, once all are let go.
pub fn close_all<K: Drop, S: Stores<K>>(
    stores: &S,
    keepers: Vec<K>,
) -> Result<(), (ServerId, StoreFault)>
    ensures closed { OnOk result (AreClosed S.store_terms.closed keepers.items) }
    ensures fault { IfErr result (λ told. FailsAt S.store_terms.closed keepers.items told.0) }
{
    let mut number: u8 = 0;
    let mut closed = Ok(());
    for keeper in keepers {
        let is_first = closed.is_ok();
        match stores.close(keeper) {
            Ok(()) => {}
            Err(fault) if is_first => {
                closed = Err((ServerId::at(number.min(MAX_SERVERS - 1)), fault));
            }
            Err(_) => {}
        }
        number = number.saturating_add(1);
    }
    closed
}
