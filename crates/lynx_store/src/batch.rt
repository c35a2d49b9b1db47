//! Many entries that are kept at once.
ghost use Rattle.std.specs.Prelude.{◌≡◌, ◌+◌, ◌≤◌, ◌^◌, All, IfNone, IfOk, IfSome, OnOk};
ghost use Rattle.std.specs.List.{AllByRecursion};
ghost use Rattle.lynx_codec.specs.Entries.{IsEntryInRange};
ghost use Rattle.lynx_keep.specs.Stored.{HasEncoding};
ghost use Rattle.lynx_sql.specs.Contents.{bodies_in};
ghost use Rattle.lynx_store.specs.Stored.{bodies_of};

use crate::acts::acts_from;
use crate::body::body_of;
use crate::keeper::{SqlKeeper, cause_of};
use lynx_cells::Changes;
use lynx_entry::Entry;
use lynx_keep::{BatchKeeper, Cause, KeepFault};
use lynx_names::Memory;
use lynx_sql::{Rising, write_entries};
use std::alloc::Global;

/// The count of entries with so many more; None where it has more than 32 bits.
fn count_with(count: u32, more: usize) -> Option<u32>
    ensures some { IfSome result (λ all. all ≡ count + more) }
    ensures none { IfNone result (2 ^ 32 ≤ count + more) }
{
    let Ok(more) = u32::try_from(more) else {
        return None;
    };
    count.checked_add(more)
}

/// The encodings of entries, a body each.
fn bodies_of(alloc: Global, entries: &[Entry]) -> Result<Vec<Vec<u8>>, Memory>
    requires { All IsEntryInRange entries.now }
    ensures encodings { IfOk result (λ bodies. bodies_in bodies.items ≡ bodies_of entries.now) }
    ensures formed { OnOk result (AllByRecursion HasEncoding entries.now) }
{
    let mut bodies = Vec::with_capacity(alloc, entries.len())?;
    for entry in entries {
        bodies.push(body_of(alloc, entry)?)?;
    }
    Ok(bodies)
}

impl<S: Rising> BatchKeeper for SqlKeeper<S> {
    fn commit_all(
        &mut self,
        alloc: Global,
        entries: &[Entry],
        changes: &Changes,
    ) -> Result<(), KeepFault> {
        let Some(count) = count_with(self.count, entries.len()) else {
            return Err(self.fail(Cause::NoPlace));
        };
        let bodies = bodies_of(alloc, entries)?;
        let acts = acts_from(alloc, self.count, entries)?;
        match write_entries(
            &mut self.conn,
            self.heading.version,
            self.count,
            bodies.as_slice(),
            changes,
            acts.as_slice(),
        ) {
            Ok(()) => {
                self.count = count;
                Ok(())
            }
            Err(error) => Err(self.fail(cause_of(&error))),
        }
    }
}
