//! What a path and a query look up.
ghost use Rattle.std.specs.Prelude.{◌≡◌, option_copied};
ghost use Rattle.lynx_status.specs.Wanted.{cell_in, cells_in, chain_in, chain_with, or_not_found, request_in, table_wanted, unqueried, wanted_in, cut_at};

use crate::asking::Refusal;
use crate::fields::range_in;
use crate::parted::{behind, cut, numbers_in};
use crate::wanted::{CellRange, Wanted};
use lynx_lex::name::Name;
use lynx_lex::number::number;
use lynx_names::limits::MAX_SERVERS;
use lynx_names::{ChainId, ClientId, ServerId};

fn or_not_found(wanted: Option<Wanted>) -> Result<Wanted, Refusal>
    ensures { result ≡ or_not_found wanted }
{
    match wanted {
        Some(wanted) => Ok(wanted),
        None => Err(Refusal::NotFound),
    }
}

/// The same where no query is given.
fn unqueried(query: Option<&[u8]>, wanted: Option<Wanted>) -> Result<Wanted, Refusal>
    ensures { result ≡ unqueried (option_copied query.entry) (or_not_found wanted) }
{
    match query {
        None => or_not_found(wanted),
        Some(_) => Err(Refusal::BadQuery),
    }
}

/// The cell of a table and a key.
fn cell_in(table: &[u8], key: Option<u64>) -> Option<Wanted>
    ensures { result ≡ cell_in table.now key }
{
    let key = key?;
    let table = Name::new(table)?;
    Some(Wanted::Cell { table, key })
}

/// The cells of a table in a range.
fn cells_in(table: &[u8], range: Option<CellRange>) -> Result<Wanted, Refusal>
    ensures { result ≡ cells_in table.now range }
{
    let Some(range) = range else {
        return Err(Refusal::BadQuery);
    };
    match Name::new(table) {
        Some(table) => Ok(Wanted::Cells { table, range }),
        None => Err(Refusal::NotFound),
    }
}

/// What is looked up of a table.
fn table_wanted(query: Option<&[u8]>, rest: &[u8]) -> Result<Wanted, Refusal>
    ensures { result ≡ table_wanted (option_copied query.entry) rest.now (cut_at 47 rest.now) }
{
    match cut(rest, b'/') {
        Some((table, key)) => unqueried(query, cell_in(table, number(key))),
        None => cells_in(rest, range_in(query)),
    }
}

/// The request of a client and a number.
fn request_in(rest: &[u8]) -> Option<Wanted>
    ensures { result ≡ request_in rest.now }
{
    let (client, number) = numbers_in(rest, b'/')?;
    Some(Wanted::Request {
        client: ClientId::new(client),
        number,
    })
}

/// The chain of an origin and an index.
fn chain_with(origin: u64, index: u64) -> Option<Wanted>
    ensures { result ≡ chain_with (origin, index) }
{
    let origin = ServerId::among(MAX_SERVERS, origin)?;
    Some(Wanted::Chain(ChainId { origin, index }))
}

fn chain_in(rest: &[u8]) -> Option<Wanted>
    ensures { result ≡ chain_in rest.now }
{
    let (origin, index) = numbers_in(rest, b':')?;
    chain_with(origin, index)
}

/// What a path and a query look up, or why that is refused. None where the path is another.
pub(crate) fn wanted_in(path: &[u8], query: Option<&[u8]>) -> Option<Result<Wanted, Refusal>>
    ensures { result ≡ wanted_in path.now (option_copied query.entry) }
{
    if let Some(rest) = behind(b"/cells/", path) {
        return Some(table_wanted(query, rest));
    }
    if let Some(rest) = behind(b"/requests/", path) {
        return Some(unqueried(query, request_in(rest)));
    }
    let rest = behind(b"/chains/", path)?;
    Some(unqueried(query, chain_in(rest)))
}
