//! The ranks of chains in an order.
ghost use Rattle.std.specs.Prelude.{◌≡◌, ◌↔◌, IsTrue, IfOk, length, slice_get};
ghost use Rattle.lynx_order.specs.inner.Certificates.{Inverts};

use lynx_names::Memory;
use std::alloc::Global;

/// For each of so many chains where it stands in the order, if it stands there once.
pub(crate) fn ranks_of(alloc: Global, order: &[usize], count: usize) -> Result<Vec<usize>, Memory>
    ensures { IfOk result (λ ranks. length ranks.items ≡ count) }
{
    let mut ranks = vec![in alloc; 0; count]?;
    for (rank, chain) in order.iter().enumerate() {
        if let Some(slot) = ranks.get_mut(*chain) {
            *slot = rank;
        }
    }
    Ok(ranks)
}

/// Whether that place stands in the list at the place of that number.
fn leads_to(inverse: &[usize], number: usize, place: usize) -> bool
    ensures { IsTrue result ↔ (slice_get inverse.now number ≡ Some place) }
{
    match inverse.get(number) {
        Some(found) => *found == place,
        None => false,
    }
}

/// Whether each number of the one list stands in the other at the place to which it leads.
pub(crate) fn inverts(numbers: &[usize], inverse: &[usize]) -> bool
    ensures { IsTrue result ↔ Inverts numbers.now inverse.now }
{
    for (place, number) in numbers.iter().enumerate() {
        if !leads_to(inverse, *number, place) {
            return false;
        }
    }
    true
}
