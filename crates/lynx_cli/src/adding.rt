//! One value more in a list.
ghost use Rattle.std.specs.Prelude.{◌≡◌, ◌++◌, ◌∷◌, [], OnOk};

use crate::fault::Fault;

/// Puts a value at the end of a list.
pub(crate) fn add<'a, T: Drop>(values: &mut Vec<T>, value: T) -> Result<(), Fault<'a>>
    ensures { OnOk result (values.new.items ≡ values.old.items ++ value ∷ []) }
{
    match values.push(value) {
        Ok(()) => Ok(()),
        Err(_) => Err(Fault::Memory),
    }
}
