//! The messages that the servers of a world sent, each with the box of its hop.
ghost use Rattle.std.specs.Prelude.{◌≡◌, ◌≤◌, ◌<◌, ◌+◌, ◌++◌, [], ◌∷◌, IfOk, OnOk, codes, drop, length, slice_get};
ghost use Rattle.std.specs.Option.{option_and_then};
ghost use Rattle.lynx_set.specs.Lookups.{program_name};
ghost use Rattle.lynx_chart.specs.Labels.{lines_of, owes_text};
ghost use Rattle.lynx_chart.specs.Messages.{hop_row, is_owed_at, is_run, owed_box, owed_row, ran_in, rows_with, run_at, sent_as, sent_by, sent_in, sent_to};
ghost use Rattle.lynx_chart.specs.Shapes.{shape_text};

use crate::boxes::put_box;
use crate::labels::{Label, owes_text};
use crate::listed::listed_at;
use crate::rows::{as_row, row_behind, row_of, spot_at};
use crate::spot::Spot;
use lynx_entry::{Entry, Message};
use lynx_names::{ChainId, Memory, ProgramId, ServerId, Stamp};
use lynx_rules::next_of;
use lynx_set::ChainSet;
use lynx_world::{Listed, World};
use std::alloc::Global;

/// A message that was sent.
#[derive(Clone, Copy)]
pub(crate) struct Sent {
    /// The box of the entry that sends it.
    pub from: Spot,
    /// That of the entry in which its hop ran, or of the hop that is owed.
    pub to: Spot,
    pub chain: ChainId,
    pub program: ProgramId,
    pub hop: u8,
    pub is_owed: bool,
}

/// Whether in the entry that hop of the chain ran.
fn is_run(chain: &ChainId, hop: u8, entry: &Entry) -> bool
    ensures { result ≡ is_run chain.now hop entry.now }
{
    match entry {
        Entry::Hop(ran) => ran.message.chain == *chain && ran.message.hop == hop,
        _ => false,
    }
}

/// The stamp of an entry, if in it that hop of the chain ran.
fn run_at(world: &World, chain: &ChainId, hop: u8, place: usize) -> Option<Stamp>
    requires { place < length world.now.list }
    ensures { result ≡ option_and_then (run_at chain.now hop) (slice_get world.now.list place) }
{
    let entry = listed_at(world, place).entry;
    if is_run(chain, hop, entry) {
        return Some(entry.stamp());
    }
    None
}

/// The stamp of the first of the entries from that place on in which that hop of the chain ran, if
/// it did.
fn ran_in(world: &World, chain: &ChainId, hop: u8, from: usize) -> Option<Stamp>
    requires { from ≤ length world.now.list }
    ensures { result ≡ ran_in chain.now hop (drop from world.now.list) }
{
    for place in from..world.len() {
        if let Some(stamp) = run_at(world, chain, hop, place) {
            return Some(stamp);
        }
    }
    None
}

fn is_owed_at(server: ServerId, sent: &Sent) -> bool
    ensures { result ≡ is_owed_at server sent.now }
{
    sent.is_owed && sent.to.column == server
}

/// The row of a hop that a server owes: below all rows, and below the hops that it owed before.
fn owed_row(rows: u32, before: &[Sent], server: ServerId) -> Result<u32, Memory>
    ensures { IfOk result (λ row. row ≡ owed_row rows before.now server) }
{
    let below = as_row(
        before
            .iter()
            .filter(|sent| is_owed_at(server, sent))
            .count(),
    )?;
    match rows.checked_add(below) {
        Some(row) => Ok(row),
        None => Err(Memory),
    }
}

/// The row of a message's hop, which ran at that stamp, or is owed.
fn hop_row(
    stamps: &[u64],
    before: &[Sent],
    server: ServerId,
    ran: Option<Stamp>,
) -> Result<u32, Memory>
    ensures { IfOk result (λ row. row ≡ hop_row stamps.now before.now server ran) }
{
    match ran {
        Some(stamp) => row_of(stamps, stamp),
        None => owed_row(row_behind(stamps)?, before, server),
    }
}

/// A message behind those, to a server, with the stamp at which its hop ran, if it did.
fn sent_to(
    stamps: &[u64],
    before: &[Sent],
    sender: ServerId,
    message: &Message,
    server: ServerId,
    ran: Option<Stamp>,
) -> Result<Sent, Memory>
    ensures { IfOk result (λ sent. sent
        ≡ sent_to stamps.now before.now sender message.now server ran) }
{
    let from = spot_at(stamps, sender, message.stamp)?;
    let row = hop_row(stamps, before, server, ran)?;
    Ok(Sent {
        from,
        to: Spot {
            column: server,
            row,
        },
        chain: message.chain,
        program: message.program,
        hop: message.hop,
        is_owed: ran.is_none(),
    })
}

/// A message behind those, the hop of which is looked for from a place on.
fn sent_as(
    world: &World,
    stamps: &[u64],
    before: &[Sent],
    sender: ServerId,
    message: &Message,
    behind: usize,
) -> Result<Sent, Memory>
    requires { behind ≤ length world.now.list }
    ensures { IfOk result (λ sent. sent ≡ sent_as world.now.set stamps.now before.now sender
        (drop behind world.now.list) message.now) }
{
    let ran = ran_in(world, &message.chain, message.hop, behind);
    let server = world.destination_of(message);
    sent_to(stamps, before, sender, message, server, ran)
}

/// Adds the message that an entry sends, if it sends one. Its hop is looked for behind the entry.
fn add_sent(
    alloc: Global,
    messages: &mut Vec<Sent>,
    world: &World,
    stamps: &[u64],
    listed: &Listed<'_>,
    behind: usize,
) -> Result<(), Memory>
    requires { behind ≤ length world.now.list }
    ensures { OnOk result (messages.new.items ≡ messages.old.items
        ++ sent_by world.now.set stamps.now messages.old.items (record {
          server = listed.now.server;
          entry = listed.now.entry.now;
        }) (drop behind world.now.list)) }
{
    if let Some(message) = next_of(alloc, world.set(), listed.entry)? {
        let before = messages.as_slice();
        let sent = sent_as(world, stamps, before, listed.server, &message, behind)?;
        messages.push(sent)?;
    }
    Ok(())
}

/// All messages that were sent, in the order of the entries that sent them. Each is looked for
/// among the entries behind its sender.
pub(crate) fn sent_in(alloc: Global, world: &World, stamps: &[u64]) -> Result<Vec<Sent>, Memory>
    ensures { IfOk result (λ messages. messages.items
        ≡ sent_in world.now.set stamps.now world.now.list) }
{
    let mut messages = Vec::new(alloc);
    for place in 0..world.len() {
        let listed = listed_at(world, place);
        add_sent(alloc, &mut messages, world, stamps, &listed, place + 1)?;
    }
    Ok(messages)
}

/// So many rows, and those of the hops that are owed.
pub(crate) fn rows_with(rows: u32, messages: &[Sent]) -> Result<u32, Memory>
    ensures { IfOk result (λ all. all ≡ rows_with rows messages.now) }
{
    let mut all = rows;
    for sent in messages {
        match sent.to.row.checked_add(1) {
            Some(below) => all = all.max(below),
            None => return Err(Memory),
        }
    }
    Ok(all)
}

/// What stands in the box of a hop that is owed.
fn owed_label(alloc: Global, set: &ChainSet, sent: &Sent) -> Result<Label, Memory>
    ensures corner { IfOk result (λ label. label.corner.items ≡ []) }
    ensures lines { IfOk result (λ label. lines_of label
        ≡ owes_text sent.now.chain sent.now.hop ∷ program_name set.now sent.now.program
        ∷ [] ∷ [] ∷ []) }
{
    Ok(Label {
        corner: Vec::new(alloc),
        deed: owes_text(alloc, &sent.chain, sent.hop)?,
        program: Vec::from_slice(alloc, set.program_name(sent.program))?,
        place: Vec::new(alloc),
        results: Vec::new(alloc),
    })
}

/// Writes the box of a hop that is owed.
pub(crate) fn put_owed_box(
    alloc: Global,
    out: &mut Vec<u8>,
    set: &ChainSet,
    sent: &Sent,
) -> Result<(), Memory>
    ensures { OnOk result (out.new.items ≡ out.old.items
        ++ shape_text (owed_box set.now sent.now)) }
{
    let label = owed_label(alloc, set, sent)?;
    put_box(alloc, out, b"owed".as_slice(), &sent.to, &label)?;
    Ok(())
}
