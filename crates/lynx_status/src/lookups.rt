//! What is answered to what is looked up.
ghost use Rattle.std.specs.Prelude.{◌≡◌, IfOk, Ok, Option};
ghost use Rattle.lynx_status.specs.Lookups.{AreRecordsReply, IsCellsReply, IsRecordsReply, IsTraceReply, LooksUp, only};
ghost use Rattle.lynx_status.specs.CellLines.{cell_body, cells_body};
ghost use Rattle.lynx_status.specs.Replies.{IsReply};
ghost use Rattle.lynx_status.specs.Shapes.{content_of};
ghost use Rattle.lynx_status.specs.declared.cells.CellsFound.{CellsFound as FoundCells};
ghost use Rattle.lynx_status.specs.declared.records.ChainRecord.{ChainRecord as FoundChain};
ghost use Rattle.lynx_status.specs.declared.records.RecordsFound.{RecordsFound as FoundRecords};

use crate::asking::Refusal;
use crate::cell_lines::{cell_body, cells_body};
use crate::cells::CellsFound;
use crate::record_lines::{chain_body, request_body};
use crate::records::{RecordFigures, RecordsFound};
use crate::reply::Reply;
use crate::shapes::Shape;
use crate::wanted::{CellRange, Wanted};
use crate::watched::Watched;
use http::StatusCode;
use lynx_lex::name::Name;
use lynx_names::{ChainId, ClientId, Memory};
use std::alloc::Global;

/// What was found, in that form.
fn told(shape: Shape, body: Vec<u8>) -> Reply
    ensures { IsReply 200 (content_of shape) body.items result }
{
    Reply {
        status: StatusCode::OK,
        content: shape.content(),
        body,
    }
}

/// The range of one key.
fn only(key: u64) -> CellRange
    ensures { result ≡ only key }
{
    CellRange {
        from: key,
        to: key,
        limit: 1,
    }
}

/// What is answered to one who looks up a cell.
fn cell_reply(
    alloc: Global,
    shape: Shape,
    table: &Name,
    key: u64,
    found: &CellsFound,
) -> Result<Reply, Memory>
    ensures { IfOk result (IsCellsReply shape (cell_body shape table.now key) found.now) }
{
    match found {
        CellsFound::NoTable => Reply::refusing(alloc, Refusal::NoTable),
        CellsFound::Stopped => Reply::refusing(alloc, Refusal::Stopped),
        CellsFound::Found(found) => Ok(told(shape, cell_body(alloc, shape, table, key, found)?)),
    }
}

/// What is answered to one who looks up cells.
fn cells_reply(
    alloc: Global,
    shape: Shape,
    table: &Name,
    found: &CellsFound,
) -> Result<Reply, Memory>
    ensures { IfOk result (IsCellsReply shape (cells_body shape table.now) found.now) }
{
    match found {
        CellsFound::NoTable => Reply::refusing(alloc, Refusal::NoTable),
        CellsFound::Stopped => Reply::refusing(alloc, Refusal::Stopped),
        CellsFound::Found(found) => Ok(told(shape, cells_body(alloc, shape, table, found)?)),
    }
}

/// What is answered to one who looks up a request.
fn records_reply(
    alloc: Global,
    shape: Shape,
    client: ClientId,
    number: u64,
    found: &[RecordFigures],
) -> Result<Reply, Memory>
    ensures { IfOk result (AreRecordsReply shape client number found.now) }
{
    if found.is_empty() {
        return Reply::refusing(alloc, Refusal::NoRequest);
    }
    let body = request_body(alloc, shape, client, number, found)?;
    Ok(told(shape, body))
}

fn cell<W: Watched>(
    alloc: Global,
    watched: &mut W,
    shape: Shape,
    table: Name,
    key: u64,
) -> Result<Reply, Memory>
    ensures { IfOk result (λ reply. (found : FoundCells)
        × W.reads watched.old table (only key) found watched.new
        × IsCellsReply shape (cell_body shape table key) found reply) }
{
    let found = watched.cells(table, only(key))?;
    cell_reply(alloc, shape, &table, key, &found)
}

fn cells<W: Watched>(
    alloc: Global,
    watched: &mut W,
    shape: Shape,
    table: Name,
    range: CellRange,
) -> Result<Reply, Memory>
    ensures { IfOk result (λ reply. (found : FoundCells)
        × W.reads watched.old table range found watched.new
        × IsCellsReply shape (cells_body shape table) found reply) }
{
    let found = watched.cells(table, range)?;
    cells_reply(alloc, shape, &table, &found)
}

fn request<W: Watched>(
    alloc: Global,
    watched: &mut W,
    shape: Shape,
    client: ClientId,
    number: u64,
) -> Result<Reply, Memory>
    ensures { IfOk result (λ reply. (found : FoundRecords)
        × W.records watched.old client number found watched.new
        × IsRecordsReply shape client number found reply) }
{
    match watched.records(client, number)? {
        RecordsFound::Stopped => Reply::refusing(alloc, Refusal::Stopped),
        RecordsFound::Found(found) => records_reply(alloc, shape, client, number, found.as_slice()),
    }
}

fn chain<W: Watched>(
    alloc: Global,
    watched: &mut W,
    shape: Shape,
    asked: ChainId,
) -> Result<Reply, Memory>
    ensures { IfOk result (λ reply. (found : Option FoundChain)
        × W.traces watched.old asked found watched.new × IsTraceReply shape found reply) }
{
    match watched.record_of(asked)? {
        Some(record) => Ok(told(shape, chain_body(alloc, shape, &record)?)),
        None => Reply::refusing(alloc, Refusal::NoChain),
    }
}

/// What is answered to one who may look that up.
fn found<W: Watched>(
    alloc: Global,
    watched: &mut W,
    shape: Shape,
    wanted: Wanted,
) -> Result<Reply, Memory>
    ensures { IfOk result (λ reply. LooksUp W.reads W.records W.traces watched.old shape (Ok wanted)
        reply watched.new) }
{
    match wanted {
        Wanted::Cell { table, key } => cell(alloc, watched, shape, table, key),
        Wanted::Cells { table, range } => cells(alloc, watched, shape, table, range),
        Wanted::Request { client, number } => request(alloc, watched, shape, client, number),
        Wanted::Chain(asked) => chain(alloc, watched, shape, asked),
    }
}

/// What is answered to what is looked up.
pub(crate) fn look_up<W: Watched>(
    alloc: Global,
    watched: &mut W,
    shape: Shape,
    wanted: Result<Wanted, Refusal>,
) -> Result<Reply, Memory>
    ensures { IfOk result (λ reply. LooksUp W.reads W.records W.traces watched.old shape wanted
        reply watched.new) }
{
    match wanted {
        Ok(wanted) => found(alloc, watched, shape, wanted),
        Err(why) => Reply::refusing(alloc, why),
    }
}
