//! The shapes of chains, and of what was refused.
ghost use Rattle.std.specs.Prelude.{◌≡◌, ◌≤◌, ◌++◌, OnOk, drop, length};
ghost use Rattle.std.specs.List.{flat_map};
ghost use Rattle.lynx_chart.specs.Chains.{act_shapes, all_chains, arrow_shapes, begun_shapes, chain_shapes, is_act_of, is_refusal, refusal_shapes};
ghost use Rattle.lynx_chart.specs.Labels.{box_of};
ghost use Rattle.lynx_chart.specs.Drawings.{given, placed_in};
ghost use Rattle.lynx_chart.specs.Shapes.{drawn, shape_text};

use crate::arrows::put_message;
use crate::boxes::put_box;
use crate::fates::Notice;
use crate::labels::{kind_of, label_of};
use crate::lines::{put_closes, put_opens};
use crate::listed::listed_at;
use crate::messages::Sent;
use crate::places::{place_colour, place_of};
use crate::rows::spot_at;
use lynx_entry::Entry;
use lynx_names::{ChainId, Memory};
use lynx_order::Explained;
use lynx_set::ChainSet;
use lynx_world::{Listed, World};
use std::alloc::Global;

/// Whether a hop of the chain ran in the entry.
fn is_act_of(chain: &ChainId, entry: &Entry) -> bool
    ensures { result ≡ is_act_of chain.now entry.now }
{
    match entry {
        Entry::Begun(begun) => begun.chain == *chain,
        Entry::Refused(_) => false,
        Entry::Hop(ran) => ran.message.chain == *chain,
    }
}

fn is_refusal(entry: &Entry) -> bool
    ensures { result ≡ is_refusal entry.now }
{
    matches!(entry, Entry::Refused(_))
}

/// What the chains of a run are drawn by.
#[derive(Clone, Copy)]
pub(crate) struct Drawing<'a> {
    pub world: &'a World,
    pub explained: &'a Explained,
    pub stamps: &'a [u64],
    pub notices: &'a [Notice],
    pub messages: &'a [Sent],
}

/// Writes the box of an entry.
fn put_entry(
    alloc: Global,
    out: &mut Vec<u8>,
    by: &Drawing<'_>,
    listed: &Listed<'_>,
) -> Result<(), Memory>
    ensures { OnOk result (out.new.items ≡ out.old.items ++ shape_text (box_of by.now.world.now.set
        by.now.explained.now by.now.stamps.now (placed_in listed.now))) }
{
    let entry = listed.entry;
    let label = label_of(alloc, by.world.set(), by.explained, entry)?;
    let spot = spot_at(by.stamps, listed.server, entry.stamp())?;
    put_box(alloc, out, kind_of(entry), &spot, &label)?;
    Ok(())
}

/// Writes the box of an entry, if it is of the chain.
fn put_act(
    alloc: Global,
    out: &mut Vec<u8>,
    by: &Drawing<'_>,
    chain: &ChainId,
    listed: &Listed<'_>,
) -> Result<(), Memory>
    ensures { OnOk result (out.new.items ≡ out.old.items ++ drawn (act_shapes
        by.now.world.now.set by.now.explained.now by.now.stamps.now chain.now
        (placed_in listed.now))) }
{
    if is_act_of(chain, listed.entry) {
        return put_entry(alloc, out, by, listed);
    }
    Ok(())
}

/// Writes the boxes of those entries from that place on that are of the chain.
fn put_acts(
    alloc: Global,
    out: &mut Vec<u8>,
    by: &Drawing<'_>,
    chain: &ChainId,
    from: usize,
) -> Result<(), Memory>
    requires { from ≤ length by.now.world.now.list }
    ensures { OnOk result (out.new.items ≡ out.old.items ++ drawn (flat_map (act_shapes
        by.now.world.now.set by.now.explained.now by.now.stamps.now chain.now)
        (drop from by.now.world.now.list))) }
{
    for place in from..by.world.len() {
        put_act(alloc, out, by, chain, &listed_at(by.world, place))?;
    }
    Ok(())
}

/// Writes the box of an entry, if it was refused.
fn put_refusal(
    alloc: Global,
    out: &mut Vec<u8>,
    by: &Drawing<'_>,
    listed: &Listed<'_>,
) -> Result<(), Memory>
    ensures { OnOk result (out.new.items ≡ out.old.items ++ drawn (refusal_shapes
        by.now.world.now.set by.now.explained.now by.now.stamps.now (placed_in listed.now))) }
{
    if is_refusal(listed.entry) {
        return put_entry(alloc, out, by, listed);
    }
    Ok(())
}

/// Writes the boxes of those entries that were refused.
pub(crate) fn put_refusals(alloc: Global, out: &mut Vec<u8>, by: &Drawing<'_>) -> Result<(), Memory>
    ensures { OnOk result (out.new.items ≡ out.old.items ++ drawn (flat_map (refusal_shapes
        by.now.world.now.set by.now.explained.now by.now.stamps.now) by.now.world.now.list)) }
{
    for place in 0..by.world.len() {
        put_refusal(alloc, out, by, &listed_at(by.world, place))?;
    }
    Ok(())
}

/// Writes the shapes of a message, if it is of the chain.
fn put_own(
    alloc: Global,
    out: &mut Vec<u8>,
    set: &ChainSet,
    notices: &[Notice],
    chain: &ChainId,
    sent: &Sent,
) -> Result<(), Memory>
    ensures { OnOk result (out.new.items ≡ out.old.items
        ++ drawn (arrow_shapes set.now notices.now chain.now sent.now)) }
{
    if sent.chain == *chain {
        return put_message(alloc, out, set, notices, sent);
    }
    Ok(())
}

/// Writes the shapes of those messages that are of the chain.
fn put_arrows(
    alloc: Global,
    out: &mut Vec<u8>,
    set: &ChainSet,
    notices: &[Notice],
    messages: &[Sent],
    chain: &ChainId,
) -> Result<(), Memory>
    ensures { OnOk result (out.new.items ≡ out.old.items
        ++ drawn (flat_map (arrow_shapes set.now notices.now chain.now) messages.now)) }
{
    for sent in messages {
        put_own(alloc, out, set, notices, chain, sent)?;
    }
    Ok(())
}

/// Writes the shapes of a chain: those of its entries from that place on, and of its messages.
fn put_chain(
    alloc: Global,
    out: &mut Vec<u8>,
    by: &Drawing<'_>,
    from: usize,
    chain: &ChainId,
) -> Result<(), Memory>
    requires { from ≤ length by.now.world.now.list }
    ensures { OnOk result (out.new.items ≡ out.old.items ++ drawn (chain_shapes (given by.now)
        (drop from by.now.world.now.list) chain.now)) }
{
    put_opens(alloc, out, place_colour(place_of(by.explained, chain)))?;
    put_acts(alloc, out, by, chain, from)?;
    put_arrows(alloc, out, by.world.set(), by.notices, by.messages, chain)?;
    put_closes(out)?;
    Ok(())
}

/// Writes the shapes of the chain that begins with an entry, which stands at that place, if one
/// does.
fn put_begun(
    alloc: Global,
    out: &mut Vec<u8>,
    by: &Drawing<'_>,
    from: usize,
    entry: &Entry,
) -> Result<(), Memory>
    requires { from ≤ length by.now.world.now.list }
    ensures { OnOk result (out.new.items ≡ out.old.items ++ drawn (begun_shapes (given by.now)
        (drop from by.now.world.now.list) entry.now)) }
{
    match entry {
        Entry::Begun(begun) => put_chain(alloc, out, by, from, &begun.chain),
        Entry::Refused(_) | Entry::Hop(_) => Ok(()),
    }
}

/// Writes the shapes of all chains, in the order in which they began. For each it goes over the
/// entries behind its begin, and over the messages.
pub(crate) fn put_chains(alloc: Global, out: &mut Vec<u8>, by: &Drawing<'_>) -> Result<(), Memory>
    ensures { OnOk result (out.new.items ≡ out.old.items
        ++ drawn (all_chains (given by.now) by.now.world.now.list)) }
{
    for place in 0..by.world.len() {
        put_begun(alloc, out, by, place, listed_at(by.world, place).entry)?;
    }
    Ok(())
}
