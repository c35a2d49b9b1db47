//! Books closed, and new ones opened with their cells.
ghost use Rattle.std.specs.Prelude.{◌≡◌, ◌∷◌, ◌++◌, [], IfOk, IfSome, IsTrue, List, OnOk, bytes_eq, filter, length, map};
ghost use Rattle.std.specs.List.{list_any};
ghost use Rattle.std.specs.List.Sorted.{IsPermutation};
ghost use Rattle.lynx_carry.specs.Carried.{IsCarriedWorld};
ghost use Rattle.lynx_carry.specs.Histories.{histories_of};
ghost use Rattle.lynx_report.specs.Owed.{AreTheOwed};
ghost use Rattle.lynx_restore.specs.Restored.{AreStored};
ghost use Rattle.lynx_cli.specs.Carrying.{AreCellsOf, AreToCarry, HasCarried, is_kept};

use crate::auditing::{Copied, READING, copied_of};
use crate::books::{Carried, check_open, next_books, sync};
use crate::fault::Fault;
use crate::hints::{Hints, Named};
use crate::proposing::proposed_writer;
use crate::reading::text_of;
use crate::real_paths::{new_path, real_path};
use crate::restoring::above;
use crate::rooms::{check_empty, has_room, leave_room, make_room, move_in, sync_room};
use crate::serving::accepted_set;
use crate::storing::{WIPED, tell};
use crate::texts::{DONE, OFFENDING};
use crate::unchanged::{FolderMark, check_unchanged, mark_folder};
use lynx_args::CarryPlace;
use lynx_audit::{kept_world, owing_lines};
use lynx_carry::{CarryFault, NamedCell, carry, entries_of, histories, named_cells, plan};
use lynx_keep::{BatchKeeper, Keeper};
use lynx_lex::Name;
use lynx_lines::write_bytes;
use lynx_names::Memory;
use lynx_names::limits::MAX_ENTRIES;
use lynx_order::Explained;
use lynx_report::owed_hops;
use lynx_restore::store_histories;
use lynx_service::{ServeFault, StoreWord, last_words};
use lynx_set::ChainSet;
use lynx_sql::Rising;
use lynx_store_files::{Copies, Stores};
use lynx_world::World;
use sqlite::Connection;
use std::alloc::Global;
use std::io::Write;

/// Writes lines, so that they are seen at once.
fn tell_now<'a, W: Write>(writer: &mut W, lines: &[u8]) -> Result<(), Fault<'a>> {
    match write_bytes(writer, lines) {
        Ok(()) if writer.flush().is_ok() => Ok(()),
        _ => Err(Fault::Write),
    }
}

/// Whether the world is explained by an order. Where it is by a cycle, that is written.
fn is_ordered<'a, W: Write>(
    alloc: Global,
    world: &World,
    writer: &mut W,
) -> Result<bool, Fault<'a>> {
    let Ok((explained, lines)) = last_words(alloc, world) else {
        return Err(Fault::Memory);
    };
    match explained {
        Explained::Order(_) => Ok(true),
        Explained::Cycle(_) => {
            tell_now(writer, lines.as_slice())?;
            Ok(false)
        }
    }
}

/// Whether nothing is owed in the world. Hops that are owed are written.
fn is_settled<'a, W: Write>(alloc: Global, world: &World, writer: &mut W) -> Result<bool, Fault<'a>>
    ensures { IfOk result (λ settled. IsTrue settled
        → AreTheOwed world.now.set world.now.list []) }
{
    let Ok(owed) = owed_hops(alloc, world) else {
        return Err(Fault::Memory);
    };
    if owed.is_empty() {
        return Ok(true);
    }
    let Ok(lines) = owing_lines(alloc, world, owed.as_slice()) else {
        return Err(Fault::Memory);
    };
    tell_now(writer, lines.as_slice())?;
    Ok(false)
}

/// Whether the table is one of those that are left behind.
fn is_dropped(dropped: &[Name], table: &Name) -> bool
    ensures { result ≡ list_any (bytes_eq table.now) dropped.now }
{
    let own = table.as_bytes();
    for name in dropped {
        if own == name.as_bytes() {
            return true;
        }
    }
    false
}

/// Whether the table of a cell isn't one of those that are left behind.
fn is_kept(dropped: &[Name], cell: &NamedCell) -> bool
    ensures { result ≡ is_kept dropped.now cell.now }
{
    !is_dropped(dropped, &cell.table)
}

/// The cells whose tables aren't left behind.
fn without(alloc: Global, dropped: &[Name], cells: &[NamedCell]) -> Result<Vec<NamedCell>, Memory>
    ensures { IfOk result (λ kept. kept.items ≡ filter (is_kept dropped.now) cells.now) }
{
    let mut kept = Vec::new(alloc);
    for cell in cells {
        if is_kept(dropped, cell) {
            kept.push(*cell)?;
        }
    }
    Ok(kept)
}

/// The nonzero cells of the world by the names of their tables, but those that are left behind.
fn cells_of<'a>(alloc: Global, world: &World, dropped: &[Name]) -> Result<Vec<NamedCell>, Fault<'a>>
    ensures { IfOk result (λ cells. AreCellsOf world.now dropped.now cells.items) }
{
    let Ok(listed) = world.cells(alloc) else {
        return Err(Fault::Memory);
    };
    let Ok(named) = named_cells(alloc, world.set(), listed.as_slice()) else {
        return Err(Fault::Memory);
    };
    match without(alloc, dropped, named.as_slice()) {
        Ok(kept) => Ok(kept),
        Err(Memory) => Err(Fault::Memory),
    }
}

/// The cells that go on of what these keepers keep. None where it is explained by a cycle or owes
/// something, and that is written.
fn cells_to_carry<'a, K: Keeper + Drop, W: Write>(
    alloc: Global,
    copied: Copied<K>,
    dropped: &[Name],
    writer: &mut W,
) -> Result<Option<Vec<NamedCell>>, Fault<'a>>
    requires { length copied.keepers.items ≡ copied.set.servers }
    ensures { IfOk result (λ found. IfSome found (λ cells.
        AreToCarry K.terms copied.set copied.keepers.items dropped.now cells.items)) }
{
    let Copied { set, keepers } = copied;
    let world = match kept_world(alloc, &set, keepers) {
        Ok(world) => world,
        Err(fault) => return Err(Fault::of_serving(fault)),
    };
    if !is_ordered(alloc, &world, writer)? || !is_settled(alloc, &world, writer)? {
        return Ok(None);
    }
    Ok(Some(cells_of(alloc, &world, dropped)?))
}

/// A line for each server, with how many entries it takes, and how many more it can take then.
fn entries_lines(alloc: Global, counts: &[u64]) -> Result<Vec<u8>, Memory> {
    let mut text = Vec::new(alloc);
    for (server, count) in counts.iter().enumerate() {
        let left = MAX_ENTRIES.saturating_sub(*count);
        let line = format!(in alloc; "carry {server} {count} left {left}\n")?;
        text.extend_from_slice(line.as_bytes())?;
    }
    Ok(text)
}

/// Writes a program to add, if one was found.
fn tell_program<W: Write>(found: Option<Vec<u8>>, writer: &mut W) {
    if let Some(program) = found {
        let _ = writer.write_all(program.as_slice());
    }
}

/// Why no chains were planned. Where a program is missing, one to add is written.
fn unplanned<'a, W: Write>(
    alloc: Global,
    set: &ChainSet,
    fault: CarryFault,
    writer: &mut W,
) -> Fault<'a> {
    if let CarryFault::NoWriter { table, server } = fault
        && let Ok(found) = proposed_writer(alloc, set, &table, server)
    {
        tell_program(found, writer);
    }
    Fault::of_carrying(fault)
}

/// The world of the set to which the cells are carried. How many entries each server takes is
/// written before.
fn carried_world<'a, W: Write>(
    alloc: Global,
    set: ChainSet,
    cells: &[NamedCell],
    writer: &mut W,
) -> Result<World, Fault<'a>>
    ensures { IfOk result (IsCarriedWorld set cells.now) }
{
    let requests = match plan(alloc, &set, cells) {
        Ok(requests) => requests,
        Err(fault) => return Err(unplanned(alloc, &set, fault, writer)),
    };
    let Ok(counts) = entries_of(alloc, &set, requests.as_slice()) else {
        return Err(Fault::Memory);
    };
    let Ok(lines) = entries_lines(alloc, counts.as_slice()) else {
        return Err(Fault::Memory);
    };
    tell_now(writer, lines.as_slice())?;
    match carry(alloc, set, requests, cells) {
        Ok(world) => Ok(world),
        Err(fault) => Err(Fault::of_carrying(fault)),
    }
}

/// Makes stores in the folder with the histories of the world.
fn store_world<'a, L: BatchKeeper + Drop, S: Stores<L>>(
    alloc: Global,
    world: &World,
    stores: &S,
    folder: &str,
) -> Result<(), Fault<'a>>
    ensures { OnOk result (AreStored L.terms S.store_terms folder.now world.now.set
        (histories_of world.now)) }
{
    let Ok(histories) = histories(alloc, world) else {
        return Err(Fault::Memory);
    };
    match store_histories(alloc, world.set(), histories.as_slice(), stores, folder) {
        Ok(()) => Ok(()),
        Err(fault) => Err(Fault::of_restoring(fault)),
    }
}

/// Whether what these keepers keep was carried to new stores in the folder; else why not is
/// written.
fn carry_kept<'a, K: Keeper + Drop, L: BatchKeeper + Drop, S: Stores<L>, W: Write>(
    alloc: Global,
    copied: Copied<K>,
    dropped: &[Name],
    set: ChainSet,
    stores: &S,
    folder: &str,
    writer: &mut W,
) -> Result<bool, Fault<'a>>
    requires { length copied.keepers.items ≡ copied.set.servers }
    ensures { IfOk result (λ done. IsTrue done → HasCarried K.terms L.terms S.store_terms
        copied.set copied.keepers.items dropped.now set folder.now) }
{
    let Some(cells) = cells_to_carry(alloc, copied, dropped, writer)? else {
        return Ok(false);
    };
    let world = carried_world(alloc, set, cells.as_slice(), writer)?;
    store_world(alloc, &world, stores, folder)?;
    Ok(true)
}

/// The tables that are left behind: names with commas between them, each of a table of the set.
fn dropped_of<'a>(
    alloc: Global,
    set: &ChainSet,
    names: Option<&str>,
) -> Result<Vec<Name>, Fault<'a>> {
    let mut dropped = Vec::new(alloc);
    let Some(names) = names else {
        return Ok(dropped);
    };
    for word in names.split(',') {
        let name = match Name::new(word.as_bytes()) {
            Some(name) if set.find_table(&name).is_some() => name,
            _ => return Err(Fault::NoTable),
        };
        if dropped.push(name).is_err() {
            return Err(Fault::Memory);
        }
    }
    Ok(dropped)
}

/// In which folder a store failed: a file that fails is one that was to be made, since the old ones
/// were copied before.
fn folder_at_fault<'b, T>(done: &Result<T, Fault<'_>>, from: &'b str, room: &'b str) -> &'b str {
    match done {
        Err(
            Fault::Serve(
                ServeFault::Store {
                    word: StoreWord::Store,
                    ..
                },
            ),
        ) => room,
        _ => from,
    }
}

/// Has the new books take their place, once the old ones are closed and it was seen that nobody
/// wrote them since they were marked.
fn open_books<'a, C: Drop, S: Copies<C>>(
    rt: &HostRuntime,
    stores: &S,
    carried: &Carried,
    room: &str,
    servers: u8,
    before: &FolderMark,
) -> Result<(), Fault<'a>> {
    sync_room(rt, room)?;
    carried.close(rt)?;
    check_unchanged(rt, stores, carried.from.as_str(), servers, before)?;
    move_in(rt, carried, room)
}

/// The same; where it isn't done the old books are open again.
fn change_books<'a, C: Drop, S: Copies<C>>(
    rt: &HostRuntime,
    stores: &S,
    carried: &Carried,
    room: &str,
    servers: u8,
    before: &FolderMark,
) -> Result<(), Fault<'a>> {
    if let Err(fault) = open_books(rt, stores, carried, room, servers, before) {
        let _ = carried.reopen(rt);
        return Err(fault);
    }
    sync(rt, above(carried.to.as_str()))
}

/// Carries what the old stores hold to new ones in the room, and has it take its place. Whether it
/// was done.
fn carry_into<
    'a,
    L: BatchKeeper + Drop,
    C: Rising + Drop,
    S: Stores<L> + Copies<Connection<C>>,
    W: Write,
>(
    rt: &HostRuntime,
    stores: &S,
    carried: &Carried,
    dropped: Option<&str>,
    set: ChainSet,
    room: &str,
    hints: &mut Hints,
    writer: &mut W,
) -> Result<bool, Fault<'a>> {
    let from = carried.from.as_str();
    let before = mark_folder(rt, from)?;
    let copied = copied_of(rt, stores, from);
    hints.note_store(rt, from, &copied);
    let copied = copied?;
    let servers = copied.set.servers();
    let dropped = dropped_of(rt.alloc(), &copied.set, dropped)?;
    let done = carry_kept(
        rt.alloc(),
        copied,
        dropped.as_slice(),
        set,
        stores,
        room,
        writer,
    );
    hints.note_store(rt, folder_at_fault(&done, from, room), &done);
    if !done? {
        return Ok(false);
    }
    change_books(rt, stores, carried, room, servers, &before)?;
    Ok(true)
}

/// Which books are carried, and whereto.
fn carried_of<'a>(rt: &HostRuntime, place: CarryPlace<'a>) -> Result<Carried, Fault<'a>> {
    let from = real_path(rt, place.from)?;
    let to = new_path(rt, place.folder)?;
    let books = next_books(rt, from.as_str())?;
    Ok(Carried { from, to, books })
}

/// Whether the old books are open. Those that a stop left closed, with the room of the new ones,
/// are opened again.
fn check_old_open<'a>(rt: &HostRuntime, carried: &Carried) -> Result<(), Fault<'a>> {
    if has_room(rt, carried)? && carried.closed(rt)? {
        return carried.reopen(rt);
    }
    check_open(rt, carried.from.as_str())
}

/// Carries by this set, and gives the status. What was made is taken away where it isn't done.
fn carry_by<
    'a,
    L: BatchKeeper + Drop,
    C: Rising + Drop,
    S: Stores<L> + Copies<Connection<C>>,
    W: Write,
>(
    rt: &HostRuntime,
    stores: &S,
    place: CarryPlace<'a>,
    set: ChainSet,
    hints: &mut Hints,
    writer: &mut W,
) -> Result<u8, Fault<'a>> {
    let carried = carried_of(rt, place)?;
    check_old_open(rt, &carried)?;
    check_empty(rt, carried.to.as_str())?;
    let room = make_room(rt, &carried)?;
    let room = room.as_str();
    let done = carry_into(
        rt,
        stores,
        &carried,
        place.dropped,
        set,
        room,
        hints,
        writer,
    );
    if !matches!(done, Ok(true)) {
        leave_room(rt, &carried, room);
    }
    if !done? {
        return Ok(OFFENDING);
    }
    match write!(writer, "books {}\n", carried.books) {
        Ok(()) => Ok(DONE),
        Err(_) => Err(Fault::Write),
    }
}

/// Closes the books of a folder: makes stores of the set of a file in another, with the same cells.
/// An offending set is refused as by a check, and nothing is opened.
pub(crate) fn carry_folder<
    'a,
    L: BatchKeeper + Drop,
    C: Rising + Drop,
    S: Stores<L> + Copies<Connection<C>>,
    W: Write,
>(
    rt: &HostRuntime,
    stores: &S,
    place: CarryPlace<'a>,
    hints: &mut Hints,
    writer: &mut W,
) -> Result<u8, Fault<'a>> {
    let read = text_of(rt, place.set)?;
    let text = read.as_slice();
    let accepted = accepted_set(rt.alloc(), text, writer);
    let name = place.set;
    hints.note_set(rt.alloc(), Named { name, text }, &accepted);
    let Some(set) = accepted? else {
        return Ok(OFFENDING);
    };
    tell(rt, READING);
    let done = carry_by(rt, stores, place, set, hints, writer);
    tell(rt, WIPED);
    hints.note_books(rt.alloc(), place.from, &done);
    done
}
