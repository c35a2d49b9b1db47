//! Calls on cells, shards, entries, held messages, encodings and links.
ghost use Rattle.lynx_codec.specs.Ranges.{IsInRange};

use crate::tried::{Called, Tried, done, done_if, ended, made_again, of_result};
use lynx_cells::{Cells, Changes};
use lynx_codec::{DecodeFault, Feed, Item, encode};
use lynx_fixtures::cells::are_cells;
use lynx_fixtures::made::{answer, entry, message, request};
use lynx_fixtures::parts::EntryParts;
use lynx_fixtures::payments::{PAID, PAY, PAY_BEGUN, SENT};
use lynx_link::links;
use lynx_names::{Memory, TableId, TryCopy};
use lynx_shards::{Range, ShardFault, ShardMap};
use lynx_turn::HeldBuffer;
use std::alloc::Global;

/// A call on a value.
#[derive(Clone, Copy)]
pub enum ValueCall {
    /// A change of a cell is noted.
    Put,
    /// Room is made for changes of cells.
    Stage,
    /// Cells are listed.
    List,
    /// Shards are made of ranges.
    Shards,
    /// An entry is copied.
    CopyEntry,
    /// A request is copied.
    CopyRequest,
    /// An answer is copied.
    CopyAnswer,
    /// A message is copied.
    CopyMessage,
    /// Room is made for messages that are held.
    Held,
    /// An encoding is pushed into a feed.
    Push,
    /// The request in it is taken.
    Next,
    /// The request is written as an encoding.
    Encode,
    /// Links are made.
    Links,
}

/// The encoding of the request for a seed of 100, by the client 1 under its number 1.
pub const SEED_ENCODING: &[u8] = &[
    0x01, 0, 0, 0, 0x1a, 0, 0, 0, 0, 0, 0, 0, 1, 0, 0, 0, 0, 0, 0, 0, 1, 0, 1, 0, 0, 0, 0, 0, 0, 0,
    100,
];

/// Changes that write 100 into the first cell of the first table.
pub fn changes(alloc: Global) -> Result<Changes, Memory> {
    let table = TableId::new(0).ok_or(Memory)?;
    let mut changes = Changes::new(alloc);
    changes.put(table, 0, 100)?;
    Ok(changes)
}

fn try_put(alloc: Global) -> Result<Tried, Memory> {
    let table = TableId::new(0).ok_or(Memory)?;
    let mut changes = Changes::new(alloc);
    match of_result(changes.put(table, 0, 100)) {
        Called::Refused => {
            let is_as_before = changes.list().is_empty();
            Ok(made_again(is_as_before, of_result(changes.put(table, 0, 100))))
        }
        answered => Ok(ended(answered)),
    }
}

/// Whether all cells are 0.
pub fn is_zero(alloc: Global, cells: &Cells) -> Result<bool, Memory> {
    Ok(cells.list(alloc)?.is_empty())
}

/// Room is made in cells that are 0, and again where memory was wanting to it.
fn stage(alloc: Global, cells: &mut Cells, changes: &Changes) -> Result<Tried, Memory> {
    match of_result(cells.stage(changes)) {
        Called::Refused => {
            let is_as_before = is_zero(alloc, cells)?;
            Ok(made_again(is_as_before, of_result(cells.stage(changes))))
        }
        answered => Ok(ended(answered)),
    }
}

fn try_stage(alloc: Global) -> Result<Tried, Memory> {
    let changes = changes(alloc)?;
    let mut cells = Cells::new(alloc);
    stage(alloc, &mut cells, &changes)
}

/// Writes the changes into the cells.
fn write(cells: &mut Cells, changes: &Changes) -> Result<(), Memory> {
    cells.stage(changes)?;
    if !cells.is_staged(changes) {
        return Err(Memory);
    }
    cells.apply(changes);
    Ok(())
}

/// The cells after the changes are listed.
fn list(alloc: Global, cells: &Cells) -> Called {
    match cells.list(alloc) {
        Ok(listed) => done_if(are_cells(listed.as_slice(), &[(0, 0, 100)])),
        Err(Memory) => Called::Refused,
    }
}

/// The cells are listed after the changes, and again where memory was wanting to it.
fn list_after(alloc: Global, cells: &mut Cells, changes: &Changes) -> Result<Tried, Memory> {
    write(cells, changes)?;
    match list(alloc, cells) {
        Called::Refused => Ok(made_again(true, list(alloc, cells))),
        answered => Ok(ended(answered)),
    }
}

fn try_list(alloc: Global) -> Result<Tried, Memory> {
    let changes = changes(alloc)?;
    let mut cells = Cells::new(alloc);
    list_after(alloc, &mut cells, &changes)
}

/// The ranges of a table at two servers.
const RANGES: &[Range] = &[
    Range {
        low: 0,
        high: 999,
        server: 0,
    },
    Range {
        low: 1000,
        high: u64::MAX,
        server: 1,
    },
];

/// The ranges of that one table.
fn ranges(alloc: Global) -> Result<Vec<Vec<Range>>, Memory> {
    let mut tables = Vec::new(alloc);
    tables.push(Vec::from_slice(alloc, RANGES)?)?;
    Ok(tables)
}

fn shards(alloc: Global) -> Result<Called, Memory> {
    match ShardMap::from_ranges(alloc, 2, ranges(alloc)?) {
        Ok(shards) => Ok(done(shards)),
        Err(ShardFault::Memory) => Ok(Called::Refused),
        Err(_) => Ok(Called::Other),
    }
}

fn try_shards(alloc: Global) -> Result<Tried, Memory> {
    match shards(alloc)? {
        Called::Refused => Ok(made_again(true, shards(alloc)?)),
        answered => Ok(ended(answered)),
    }
}

fn try_copy<T: TryCopy + Drop>(alloc: Global, made: Result<T, Memory>) -> Result<Tried, Memory> {
    let made = made?;
    match of_result(made.copy(alloc)) {
        Called::Refused => Ok(made_again(true, of_result(made.copy(alloc)))),
        answered => Ok(ended(answered)),
    }
}

fn try_held(alloc: Global) -> Tried {
    match of_result(HeldBuffer::new(alloc)) {
        Called::Refused => made_again(true, of_result(HeldBuffer::new(alloc))),
        answered => ended(answered),
    }
}

fn try_push(alloc: Global) -> Result<Tried, Memory> {
    let mut feed = Feed::new(alloc);
    match of_result(feed.push(SEED_ENCODING)) {
        Called::Refused => Ok(made_again(true, of_result(feed.push(SEED_ENCODING)))),
        answered => Ok(ended(answered)),
    }
}

/// The next item of the feed is taken.
fn next(alloc: Global, feed: &mut Feed) -> Called {
    match feed.next(alloc) {
        Ok(Some(item)) => done(item),
        Ok(None) => Called::Other,
        Err(DecodeFault::Memory) => Called::Refused,
        Err(_) => Called::Other,
    }
}

fn try_next(alloc: Global) -> Result<Tried, Memory> {
    let mut feed = Feed::new(alloc);
    feed.push(SEED_ENCODING)?;
    match next(alloc, &mut feed) {
        Called::Refused => Ok(made_again(true, next(alloc, &mut feed))),
        answered => Ok(ended(answered)),
    }
}

/// The request is written as an encoding.
fn write_encoding(alloc: Global, item: &Item) -> Called
    requires { IsInRange item.now }
{
    match encode(alloc, item) {
        Ok(encoding) => done_if(encoding.as_slice() == SEED_ENCODING),
        Err(Memory) => Called::Refused,
    }
}

/// The request is written, and again where memory was wanting to it.
fn write_again(alloc: Global, item: &Item) -> Tried
    requires { IsInRange item.now }
{
    match write_encoding(alloc, item) {
        Called::Refused => made_again(true, write_encoding(alloc, item)),
        answered => ended(answered),
    }
}

fn try_encode(alloc: Global) -> Result<Tried, Memory> {
    let mut feed = Feed::new(alloc);
    feed.push(SEED_ENCODING)?;
    match feed.next(alloc) {
        Ok(Some(item)) => {
            let tried = write_again(alloc, &item);
            done(item);
            Ok(tried)
        }
        Ok(None) => Err(Memory),
        Err(_) => Err(Memory),
    }
}

fn try_links(alloc: Global) -> Tried {
    match of_result(links(alloc, 2)) {
        Called::Refused => made_again(true, of_result(links(alloc, 2))),
        answered => ended(answered),
    }
}

/// Makes it, and again where memory was wanting to it.
pub fn try_value(alloc: Global, call: ValueCall) -> Result<Tried, Memory> {
    match call {
        ValueCall::Put => try_put(alloc),
        ValueCall::Stage => try_stage(alloc),
        ValueCall::List => try_list(alloc),
        ValueCall::Shards => try_shards(alloc),
        ValueCall::CopyEntry => try_copy(alloc, entry(alloc, EntryParts::Begun(PAID))),
        ValueCall::CopyRequest => try_copy(alloc, request(alloc, PAY)),
        ValueCall::CopyAnswer => try_copy(alloc, answer(alloc, PAY_BEGUN)),
        ValueCall::CopyMessage => try_copy(alloc, message(alloc, SENT)),
        ValueCall::Held => Ok(try_held(alloc)),
        ValueCall::Push => try_push(alloc),
        ValueCall::Next => try_next(alloc),
        ValueCall::Encode => try_encode(alloc),
        ValueCall::Links => Ok(try_links(alloc)),
    }
}
