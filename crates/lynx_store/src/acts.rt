//! The hops that entries are of.
ghost use Rattle.std.specs.Prelude.{◌≡◌, ◌↔◌, ◌+◌, ◌<◌, ◌≤◌, ◌^◌, length, IfNone, IfOk, IfSome, IsTrue, OnOk, map};
ghost use Rattle.lynx_store.specs.Acts.{act_at, acted_of, acts_from, added, AreApart, ShowsAt, hop_cmp, hop_in};
ghost use Rattle.lynx_sql.specs.Acts.{ShowActed, shown_act};
ghost use Rattle.std.specs.BTreeSet.{IsFromIterResult};

use crate::columns::{is_number, is_spelled};
use lynx_entry::Entry;
use lynx_names::Memory;
use lynx_sql::{Acted, StoreVersion};
use sqlite::Row;
use std::alloc::Global;
use std::collections::BTreeSet;

/// The hop of the entry at that place; none of a request that was refused.
pub(crate) fn act_at(place: u32, entry: &Entry) -> Option<Acted>
    ensures { result ≡ act_at place entry.now }
{
    match entry {
        Entry::Begun(begun) => Some(Acted {
            origin: u32::from(begun.chain.origin.number()),
            index: begun.chain.index,
            hop: 0,
            place,
        }),
        Entry::Refused(_) => None,
        Entry::Hop(ran) => Some(Acted {
            origin: u32::from(ran.message.chain.origin.number()),
            index: ran.message.chain.index,
            hop: u32::from(ran.message.hop),
            place,
        }),
    }
}

/// Puts a hop behind others, if there is one.
fn push_act(acts: &mut Vec<Acted>, act: Option<Acted>) -> Result<(), Memory>
    ensures { OnOk result (acts.new.items ≡ added acts.old.items act) }
{
    match act {
        Some(hop) => {
            acts.push(hop)?;
            Ok(())
        }
        None => Ok(()),
    }
}

/// The hops of entries at the places from this one on.
pub(crate) fn acts_from(alloc: Global, place: u32, entries: &[Entry]) -> Result<Vec<Acted>, Memory>
    requires { place + length entries.now < 2 ^ 32 }
    ensures { IfOk result (λ acts. acts.items ≡ acts_from place entries.now) }
{
    let mut acts = Vec::new(alloc);
    let mut next = place;
    for entry in entries {
        push_act(&mut acts, act_at(next, entry))?;
        next += 1;
    }
    Ok(acts)
}

/// The hops of the entries, by place. None where there are 2^32 entries or more.
pub(crate) fn acts_of(alloc: Global, entries: &[Entry]) -> Result<Option<Vec<Acted>>, Memory>
    ensures some { IfOk result
        (λ found. IfSome found (λ acts. acts.items ≡ acts_from 0 entries.now)) }
    ensures none { IfOk result (λ found. IfNone found (2 ^ 32 ≤ length entries.now)) }
{
    if u32::try_from(entries.len()).is_err() {
        return Ok(None);
    }
    Ok(Some(acts_from(alloc, 0, entries)?))
}

/// A hop: the chain's origin and index, and its number.
type HopKey = ((u32, u64), u32);

/// The hops of these rows, one for each.
fn keys_of(alloc: Global, acts: &[Acted]) -> Result<Vec<HopKey>, Memory>
    ensures { IfOk result (λ keys. keys.items ≡ map hop_in acts.now) }
{
    let mut keys = Vec::with_capacity(alloc, acts.len())?;
    for act in acts {
        keys.push(((act.origin, act.index), act.hop))?;
    }
    Ok(keys)
}

/// The set of these hops.
fn set_of(alloc: Global, keys: Vec<HopKey>) -> Result<BTreeSet<HopKey>, Memory>
    ensures { IfOk result (λ set. IsFromIterResult hop_cmp keys.items set) }
{
    Ok(keys.into_iter().collect(alloc)?)
}

/// Whether no two are of one hop.
pub(crate) fn are_apart(alloc: Global, acts: &[Acted]) -> Result<bool, Memory>
    ensures { IfOk result (λ apart. IsTrue apart ↔ AreApart acts.now) }
{
    let hops = set_of(alloc, keys_of(alloc, acts)?)?;
    Ok(hops.len() == acts.len())
}

/// Whether a row is that of the hop.
fn is_act_row(row: &Row, act: &Acted) -> bool
    ensures { IsTrue result ↔ (row.now ≡ shown_act act.now) }
{
    row.column_count() == 4
        && is_number(row, 0, act.origin)
        && is_spelled(row, 1, act.index)
        && is_number(row, 2, act.hop)
        && is_number(row, 3, act.place)
}

/// Whether the row at a place is that of the hop there.
fn is_act_at(acts: &[Acted], rows: &[Row], place: usize) -> bool
    requires act { place < length acts.now }
    requires row { place < length rows.now }
    ensures { IsTrue result ↔ ShowsAt acts.now rows.now place }
{
    is_act_row(&rows[place], &acts[place])
}

/// Whether the rows are those of the hops, one for each, in order.
fn are_act_rows(acts: &[Acted], rows: &[Row]) -> bool
    ensures { IsTrue result ↔ (rows.now ≡ map shown_act acts.now) }
{
    if acts.len() != rows.len() {
        return false;
    }
    for place in 0..acts.len() {
        if !is_act_at(acts, rows, place) {
            return false;
        }
    }
    true
}

/// Whether the rows of a store of that version are those of the hops of its entries.
#[tactic(auto, using(crate::proofs::ActLemmas::none_shown, crate::proofs::ActLemmas::some_shown))]
pub(crate) fn are_acts_shown(
    alloc: Global,
    version: StoreVersion,
    entries: &[Entry],
    rows: &Option<Vec<Row>>,
) -> Result<bool, Memory>
    ensures shows { IfOk result
        (λ shown. IsTrue shown → ShowActed rows.now (acted_of version entries.now)) }
    ensures only { IfOk result (λ shown. length entries.now < 2 ^ 32
        → ShowActed rows.now (acted_of version entries.now) → IsTrue shown) }
{
    let Some(rows) = rows else {
        return Ok(version == StoreVersion::One);
    };
    if version == StoreVersion::One {
        return Ok(false);
    }
    let Some(acts) = acts_of(alloc, entries)? else {
        return Ok(false);
    };
    Ok(are_act_rows(acts.as_slice(), rows.as_slice()))
}
