ghost use Rattle.std.specs.Prelude.{◌≡◌, ◌∷◌, ◌++◌, [], OnOk};

use lynx_names::Memory;

/// The store of a server, which is open: the keeper of one that was made, or the database of one
/// that was there.
#[derive(Drop)]
pub enum Store<K, C> {
    Made(K),
    Held(C),
}

/// One store more.
pub(crate) fn add<K: Drop, C: Drop>(
    stores: &mut Vec<Store<K, C>>,
    store: Store<K, C>,
) -> Result<(), Memory>
    ensures { OnOk result (stores.new.items ≡ stores.old.items ++ store ∷ []) }
{
    stores.push(store)?;
    Ok(())
}
