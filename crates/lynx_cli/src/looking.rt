//! What the stores of a folder hold that nobody serves, by copies in memory: cells, and what became
//! of a request. The stores are only read, and not judged.
ghost use Rattle.std.specs.Prelude.{◌≡◌, IfOk, OnOk, Some, option_map};
ghost use Rattle.std.specs.Io.KnownBytes.{Appends};
ghost use Rattle.sqlite.specs.Held.{state};
ghost use Rattle.lynx_show.specs.Finds.{request_lines};
ghost use Rattle.lynx_store_files.specs.Paths.{store_path};
ghost use Rattle.lynx_set.specs.Names.{place_of};
ghost use Rattle.lynx_cli.specs.Looks.{AreHeld, HasFound, HasRead, IsHeld, IsKeysOf, IsReadAt, found_or_absent, keys_lines, status_of_found};

use crate::adding::add;
use crate::auditing::{READING, copy_of};
use crate::fault::Fault;
use crate::hints::Hints;
use crate::storing::{WIPED, tell};
use crate::texts::{ABSENT, DONE};
use lynx_ask::range_in;
use lynx_lex::Name;
use lynx_lex::number::number;
use lynx_lines::write_bytes;
use lynx_names::{ClientId, Memory, ServerId, TableId};
use lynx_set::ChainSet;
use lynx_show::{KeyRange, key_lines, range_lines, request_lines};
use lynx_sql::Rising;
use lynx_sql::schema::is_empty;
use lynx_store::{Inspected, StoreFault, inspect};
use lynx_store_files::Copies;
use sqlite::Connection;
use std::alloc::Global;
use std::io::Write;

/// The stores of a folder, as they were read: the set that they are of, and what each holds.
#[derive(Drop)]
struct HeldStores {
    set: ChainSet,
    stores: Vec<Inspected>,
}

/// Which cells of a table are asked for.
#[derive(Clone, Copy, Debug, PartialEq, Eq)]
pub(crate) enum Keys {
    One(u64),
    Several(KeyRange),
}

/// What the store of that server in the folder holds. A database without tables is a store that is
/// lost.
fn read_at<'a, C: Rising + Drop, S: Copies<Connection<C>>>(
    rt: &HostRuntime,
    copies: &S,
    folder: &str,
    server: ServerId,
) -> Result<Inspected, Fault<'a>>
    ensures { IfOk result (IsReadAt S.copied_from (λ conn. state C.Store conn)
        (store_path folder.now server)) }
{
    match copy_of(rt, copies, folder, server) {
        Ok(copy) if is_empty(copy.schema()) => Err(Fault::of_lost(server)),
        Ok(mut copy) => match inspect(rt.alloc(), &mut copy) {
            Ok(held) => Ok(held),
            Err(fault) => Err(Fault::of_store(server, fault)),
        },
        Err(fault) => Err(fault),
    }
}

/// The same where it is that server's, and of the set.
fn held_at<'a, C: Rising + Drop, S: Copies<Connection<C>>>(
    rt: &HostRuntime,
    copies: &S,
    folder: &str,
    set: &ChainSet,
    server: ServerId,
) -> Result<Inspected, Fault<'a>>
    ensures held { IfOk result (IsHeld S.copied_from (λ conn. state C.Store conn) folder.now
        set.now) }
    ensures server { IfOk result (λ held. held.server ≡ server) }
{
    let held = read_at(rt, copies, folder, server)?;
    if held.server == server && held.set.is_same(set) {
        Ok(held)
    } else {
        Err(Fault::of_store(server, StoreFault::OtherSet))
    }
}

/// The set that the store of server 0 is of.
fn first_set<'a, C: Rising + Drop, S: Copies<Connection<C>>>(
    rt: &HostRuntime,
    copies: &S,
    folder: &str,
) -> Result<ChainSet, Fault<'a>> {
    let first = ServerId::first();
    let held = read_at(rt, copies, folder, first)?;
    Ok(held.set)
}

/// What the stores of the set's servers in the folder hold.
fn stores_of<'a, C: Rising + Drop, S: Copies<Connection<C>>>(
    rt: &HostRuntime,
    copies: &S,
    folder: &str,
    set: &ChainSet,
) -> Result<Vec<Inspected>, Fault<'a>>
    ensures { IfOk result (λ stores. AreHeld S.copied_from (λ conn. state C.Store conn) folder.now
        set.now stores.items) }
{
    let mut stores = Vec::new(rt.alloc());
    for number in 0..set.servers() {
        let held = held_at(rt, copies, folder, set, ServerId::at(number))?;
        add(&mut stores, held)?;
    }
    Ok(stores)
}

/// The stores of the folder, of the set that the store of server 0 is of.
fn held_in<'a, C: Rising + Drop, S: Copies<Connection<C>>>(
    rt: &HostRuntime,
    copies: &S,
    folder: &str,
) -> Result<HeldStores, Fault<'a>>
    ensures { IfOk result (λ held. AreHeld S.copied_from (λ conn. state C.Store conn) folder.now
        held.set held.stores.items) }
{
    let set = first_set(rt, copies, folder)?;
    let stores = stores_of(rt, copies, folder, &set)?;
    Ok(HeldStores { set, stores })
}

/// The table of that name.
fn table_of<'a>(set: &ChainSet, name: &str) -> Result<TableId, Fault<'a>>
    ensures { IfOk result (λ table. place_of set.now.tables name.now ≡ Some table) }
{
    let Some(name) = Name::new(name.as_bytes()) else {
        return Err(Fault::NoTable);
    };
    match set.find_table(&name) {
        Some(table) => Ok(table),
        None => Err(Fault::NoTable),
    }
}

/// The range of keys that a word names.
fn several_of<'a>(word: &[u8]) -> Result<Keys, Fault<'a>>
    ensures { IfOk result (IsKeysOf (Some word.now)) }
{
    match range_in(word) {
        Some((first, last)) if first <= last => Ok(Keys::Several(KeyRange { first, last })),
        _ => Err(Fault::BadKeys),
    }
}

/// The keys that a word names, or all without one.
fn keys_of<'a>(word: Option<&str>) -> Result<Keys, Fault<'a>>
    ensures { IfOk result (IsKeysOf (option_map (λ own. own.now) word.entry)) }
{
    let Some(word) = word else {
        return Ok(Keys::Several(KeyRange {
            first: 0,
            last: u64::MAX,
        }));
    };
    match number(word.as_bytes()) {
        Some(key) => Ok(Keys::One(key)),
        None => several_of(word.as_bytes()),
    }
}

/// The lines of a table's cells with those keys.
fn keys_lines(
    alloc: Global,
    set: &ChainSet,
    stores: &[Inspected],
    table: TableId,
    keys: Keys,
) -> Result<Vec<u8>, Memory>
    ensures { IfOk result (λ text. text.items ≡ keys_lines set.now stores.now table keys) }
{
    match keys {
        Keys::One(key) => key_lines(alloc, set, stores, table, key),
        Keys::Several(range) => range_lines(alloc, set, stores, table, range),
    }
}

/// Tells the cells of a table with those keys.
fn tell_cells<'a, W: Write>(
    alloc: Global,
    held: &HeldStores,
    table: TableId,
    keys: Keys,
    writer: &mut W,
) -> Result<u8, Fault<'a>>
    ensures written { OnOk result (Appends (W.contents writer.old) (W.contents writer.new)
        (keys_lines held.now.set held.now.stores.items table keys)) }
    ensures status { IfOk result (λ status. status ≡ 0) }
{
    let Ok(text) = keys_lines(alloc, &held.set, held.stores.as_slice(), table, keys) else {
        return Err(Fault::Memory);
    };
    match write_bytes(writer, text.as_slice()) {
        Ok(()) => Ok(DONE),
        Err(_) => Err(Fault::Write),
    }
}

/// Tells what became of a request.
fn tell_request<'a, W: Write>(
    alloc: Global,
    held: &HeldStores,
    client: ClientId,
    number: u64,
    writer: &mut W,
) -> Result<u8, Fault<'a>>
    ensures written { OnOk result (Appends (W.contents writer.old) (W.contents writer.new)
        (found_or_absent (request_lines held.now.set held.now.stores.items client number))) }
    ensures status { IfOk result (λ status. status
        ≡ status_of_found (request_lines held.now.set held.now.stores.items client number)) }
{
    let stores = held.stores.as_slice();
    let Ok(text) = request_lines(alloc, &held.set, stores, client, number) else {
        return Err(Fault::Memory);
    };
    let (told, status) = if text.is_empty() {
        (b"absent\n".as_slice(), ABSENT)
    } else {
        (text.as_slice(), DONE)
    };
    match write_bytes(writer, told) {
        Ok(()) => Ok(status),
        Err(_) => Err(Fault::Write),
    }
}

/// Reads cells of the stores of a folder.
fn read_cells<'a, C: Rising + Drop, S: Copies<Connection<C>>, W: Write>(
    rt: &HostRuntime,
    copies: &S,
    folder: &str,
    table: &str,
    keys: Option<&str>,
    writer: &mut W,
) -> Result<u8, Fault<'a>>
    ensures { IfOk result (HasRead S.copied_from (λ conn. state C.Store conn) folder.now table.now
        (option_map (λ own. own.now) keys.entry) (W.contents writer.old)
        (W.contents writer.new)) }
{
    let keys = keys_of(keys)?;
    let held = held_in(rt, copies, folder)?;
    let table = table_of(&held.set, table)?;
    tell_cells(rt.alloc(), &held, table, keys, writer)
}

/// Finds a request in the stores of a folder.
fn find_request<'a, C: Rising + Drop, S: Copies<Connection<C>>, W: Write>(
    rt: &HostRuntime,
    copies: &S,
    folder: &str,
    client: ClientId,
    number: u64,
    writer: &mut W,
) -> Result<u8, Fault<'a>>
    ensures { IfOk result (HasFound S.copied_from (λ conn. state C.Store conn) folder.now client
        number (W.contents writer.old) (W.contents writer.new)) }
{
    let held = held_in(rt, copies, folder)?;
    tell_request(rt.alloc(), &held, client, number, writer)
}

/// Which cells of which table are asked for, as the words name them.
#[derive(Clone, Copy)]
pub(crate) struct CellWords<'w> {
    pub(crate) table: &'w str,
    pub(crate) keys: Option<&'w str>,
}

/// Tells what cells of the stores of a folder hold, and a person at a terminal that it reads
/// meanwhile.
pub(crate) fn read_folder<'a, C: Rising + Drop, S: Copies<Connection<C>>, W: Write>(
    rt: &HostRuntime,
    copies: &S,
    folder: &str,
    words: CellWords<'_>,
    hints: &mut Hints,
    writer: &mut W,
) -> Result<u8, Fault<'a>> {
    tell(rt, READING);
    let done = read_cells(rt, copies, folder, words.table, words.keys, writer);
    tell(rt, WIPED);
    hints.note_store(rt, folder, &done);
    done
}

/// Tells what became of a request by the stores of a folder, and a person at a terminal that it
/// reads meanwhile.
pub(crate) fn find_in_folder<'a, C: Rising + Drop, S: Copies<Connection<C>>, W: Write>(
    rt: &HostRuntime,
    copies: &S,
    folder: &str,
    client: u64,
    number: u64,
    hints: &mut Hints,
    writer: &mut W,
) -> Result<u8, Fault<'a>> {
    tell(rt, READING);
    let done = find_request(rt, copies, folder, ClientId::new(client), number, writer);
    tell(rt, WIPED);
    hints.note_store(rt, folder, &done);
    done
}
