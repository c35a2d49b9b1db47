//! The stores of a folder given to the set of a file.
ghost use Rattle.std.specs.Prelude.{◌≡◌, ℕ, List, IfOk};
ghost use Rattle.sqlite.specs.Held.{state};
ghost use Rattle.lynx_report.specs.Refusals.{Accepts};
ghost use Rattle.lynx_cli.specs.Done.{HasExtended, HasGivenText};

use crate::fault::Fault;
use crate::hints::{Hints, Named};
use crate::reading::text_of;
use crate::serving::accepted_set;
use crate::storing::{WIPED, tell};
use crate::texts::{DONE, OFFENDING};
use lynx_give::give_stores;
use lynx_keep::Keeper;
use lynx_set::ChainSet;
use lynx_sql::Rising;
use lynx_store_files::{Copies, Databases, Stores};
use sqlite::Connection;
use std::io::Write;

/// What a person at a terminal is told meanwhile: reading a store takes some seconds where it is
/// large.
const EXTENDING: &str = "\rlynx: giving the stores to the set\x1b[K";

/// Gives the stores of the folder to the set of a text, which is accepted, and tells a person at a
/// terminal so meanwhile.
fn extend_accepted<
    'a,
    K: Keeper + Drop,
    D: Rising + Drop,
    S: Stores<K> + Databases<Connection<D>>,
    W: Write,
>(
    rt: &HostRuntime,
    stores: &S,
    folder: &str,
    text: &[u8],
    set: &ChainSet,
    writer: &mut W,
) -> Result<u8, Fault<'a>>
    requires { Accepts text.now set.now }
    ensures { IfOk result (HasGivenText S.store_terms folder.now (λ conn. state D.Store conn)
        (S.opened_at folder.now) S.database_closed text.now (W.contents writer.old)
        (W.contents writer.new)) }
{
    tell(rt, EXTENDING);
    let done = give_stores(rt.alloc(), stores, folder, set, writer);
    tell(rt, WIPED);
    match done {
        Ok(()) => Ok(DONE),
        Err(fault) => Err(Fault::of_giving(fault)),
    }
}

/// Gives the stores of the folder to the set of a file. An offending set is refused as by a check,
/// and nothing is opened.
pub(crate) fn extend_folder<
    'a,
    K: Keeper + Drop,
    D: Rising + Drop,
    C: Rising + Drop,
    S: Stores<K> + Databases<Connection<D>> + Copies<Connection<C>>,
    W: Write,
>(
    rt: &HostRuntime,
    stores: &S,
    folder: &str,
    name: &'a str,
    hints: &mut Hints,
    writer: &mut W,
) -> Result<u8, Fault<'a>>
    ensures { IfOk result (λ status. (text : List ℕ)
        × HasExtended S.store_terms folder.now (λ conn. state D.Store conn)
        (S.opened_at folder.now) S.database_closed text (W.contents writer.old)
        (W.contents writer.new) status) }
{
    let read = text_of(rt, name)?;
    let text = read.as_slice();
    let accepted = accepted_set(rt.alloc(), text, writer);
    hints.note_set(rt.alloc(), Named { name, text }, &accepted);
    let Some(set) = accepted? else {
        return Ok(OFFENDING);
    };
    let done = extend_accepted(rt, stores, folder, text, &set, writer);
    hints.note_store(rt, folder, &done);
    hints.note_foreign(rt.alloc(), stores, folder, &set, &done);
    done
}
