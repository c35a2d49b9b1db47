//! What a line looks up, which takes no entry: it is asked over HTTP, at the port of the status.
ghost use Rattle.std.specs.Prelude.{◌≡◌, ◌∷◌, ◌++◌, IfOk, IfSome, OnOk, codes, decimal};
ghost use Rattle.std.specs.String.{string_bytes};
ghost use Rattle.lynx_ask.specs.Lookups.{IsLookup, IsOfKeys, IsTableOf, LooksUp, cells_from, cells_to, from_key, path_of, range_text};
ghost use Rattle.lynx_lex.specs.Lines.{texts};

use lynx_lex::lines::{place_of_byte, words_of};
use lynx_lex::number::number;
use lynx_lex::{FaultKind, Name, WordFault, at};
use lynx_names::ClientId;
use lynx_set::ChainSet;
use std::alloc::{AllocError, Global};
use std::fmt::Write;

/// What a line looks up.
#[derive(Clone, Copy, Debug, PartialEq, Eq)]
pub enum Lookup {
    /// `read TABLE KEY`: what that cell holds.
    Cell { table: Name, key: u64 },
    /// `read TABLE FROM..TO`: the cells of a table that aren't 0, both keys included.
    Cells { table: Name, from: u64, to: u64 },
    /// `find CLIENT NUMBER`: what became of that request.
    Request { client: ClientId, number: u64 },
}

/// The path of a cell.
fn cell_path(alloc: Global, table: &Name, key: u64) -> Result<String, AllocError>
    ensures { IfOk result (λ path. string_bytes path ≡ path_of (Lookup.Cell table.now key)) }
{
    let mut path = String::new(alloc);
    write!(path, "/cells/{table}/{key}")?;
    Ok(path)
}

/// The path of the cells of a table, up to their first key.
fn cells_from(alloc: Global, table: &Name, from: u64) -> Result<String, AllocError>
    ensures { IfOk result (λ path. string_bytes path ≡ cells_from table.now from) }
{
    let mut path = String::new(alloc);
    write!(path, "/cells/{table}?from={from}")?;
    Ok(path)
}

/// Adds their last key, and that a thousand of them are told at most.
fn put_end(path: &mut String, to: u64) -> Result<(), AllocError>
    ensures { OnOk result (string_bytes path.new ≡ string_bytes path.old ++ cells_to to) }
{
    write!(path, "&to={to}&limit=1000")?;
    Ok(())
}

/// The path of the cells of a table in a range, as many as are told at most.
fn cells_path(alloc: Global, table: &Name, from: u64, to: u64) -> Result<String, AllocError>
    ensures { IfOk result (λ path. string_bytes path ≡ path_of (Lookup.Cells table.now from to)) }
{
    let mut path = cells_from(alloc, table, from)?;
    put_end(&mut path, to)?;
    Ok(path)
}

/// The path of a request.
fn request_path(alloc: Global, client: ClientId, number: u64) -> Result<String, AllocError>
    ensures { IfOk result (λ path. string_bytes path ≡ path_of (Lookup.Request client number)) }
{
    let client = client.number();
    let mut path = String::new(alloc);
    write!(path, "/requests/{client}/{number}")?;
    Ok(path)
}

impl Lookup {
    /// The path and the query by which a service tells it.
    pub fn path(&self, alloc: Global) -> Result<String, AllocError>
        ensures { IfOk result (λ path. string_bytes path ≡ path_of self.now) }
    {
        match self {
            Lookup::Cell { table, key } => cell_path(alloc, table, *key),
            Lookup::Cells { table, from, to } => cells_path(alloc, table, *from, *to),
            Lookup::Request { client, number } => request_path(alloc, *client, *number),
        }
    }

    /// The same from that key on. Only a range has one.
    pub fn from_key(self, next: u64) -> Lookup
        ensures { result ≡ from_key next self }
    {
        match self {
            Lookup::Cells { table, to, .. } => Lookup::Cells {
                table,
                from: next,
                to,
            },
            other => other,
        }
    }
}

/// A number of a line.
fn read_number(word: &[u8]) -> Result<u64, FaultKind>
    ensures { IfOk result (λ found. word.now ≡ decimal found) }
{
    match number(word) {
        Some(found) => Ok(found),
        None => Err(FaultKind::BadNumber),
    }
}

/// A table of the set.
fn read_table(set: &ChainSet, word: &[u8]) -> Result<Name, FaultKind>
    ensures spelled { IfOk result (λ table. word.now ≡ table) }
    ensures known { IfOk result (λ table. IsTableOf set.now table) }
{
    match Name::new(word) {
        Some(table) if set.place_of_table(&table).is_some() => Ok(table),
        _ => Err(FaultKind::Unknown),
    }
}

/// The two keys of a word `FROM..TO`.
pub fn range_in(word: &[u8]) -> Option<(u64, u64)>
    ensures { IfSome result (λ range. word.now ≡ range_text range.0 range.1) }
{
    let end = place_of_byte(word, b'.')?;
    let (front, rest) = word.split_at(end);
    let last = rest.strip_prefix(b"..".as_slice())?;
    Some((number(front)?, number(last)?))
}

/// The cells of a table in a range, if there is one.
fn read_range(table: Name, word: &[u8]) -> Result<Lookup, FaultKind>
    ensures { IfOk result (IsOfKeys table word.now) }
{
    match range_in(word) {
        Some((from, to)) if from <= to => Ok(Lookup::Cells { table, from, to }),
        _ => Err(FaultKind::BadNumber),
    }
}

/// The cells of a table that these keys name: `KEY` or `FROM..TO`.
fn read_keys(table: Name, word: &[u8]) -> Result<Lookup, FaultKind>
    ensures { IfOk result (IsOfKeys table word.now) }
{
    match number(word) {
        Some(key) => Ok(Lookup::Cell { table, key }),
        None => read_range(table, word),
    }
}

/// `TABLE KEY` or `TABLE FROM..TO`
fn read_cells(set: &ChainSet, words: &[&[u8]]) -> Result<Lookup, WordFault>
    ensures { IfOk result (IsLookup set.now (codes "read" ∷ texts words.now)) }
{
    let [table, keys] = words else {
        return Err(WordFault::new(FaultKind::BadLine, 0));
    };
    let table = at(2, read_table(set, table))?;
    at(3, read_keys(table, keys))
}

/// `CLIENT NUMBER`
fn read_request(set: &ChainSet, words: &[&[u8]]) -> Result<Lookup, WordFault>
    ensures { IfOk result (IsLookup set.now (codes "find" ∷ texts words.now)) }
{
    let [client, number] = words else {
        return Err(WordFault::new(FaultKind::BadLine, 0));
    };
    let client = ClientId::new(at(2, read_number(client))?);
    let number = at(3, read_number(number))?;
    Ok(Lookup::Request { client, number })
}

/// What words look up. None where they ask for something else.
fn lookup_of(set: &ChainSet, words: &[&[u8]]) -> Option<Result<Lookup, WordFault>>
    ensures { IfSome result (λ read. IfOk read (IsLookup set.now (texts words.now))) }
{
    let (verb, words) = words.split_first()?;
    if *verb == b"read".as_slice() {
        Some(read_cells(set, words))
    } else if *verb == b"find".as_slice() {
        Some(read_request(set, words))
    } else {
        None
    }
}

/// What a line looks up, without its LF: `read TABLE KEY`, `read TABLE FROM..TO` or `find CLIENT
/// NUMBER`. None where it asks for something else, or has no words.
pub fn read_lookup(alloc: Global, set: &ChainSet, line: &[u8]) -> Option<Result<Lookup, WordFault>>
    ensures { IfSome result (λ read. IfOk read (LooksUp set.now line.now)) }
{
    match words_of(alloc, line) {
        Ok(words) => lookup_of(set, words.as_slice()),
        Err(FaultKind::Memory) => Some(Err(WordFault::new(FaultKind::Memory, 0))),
        Err(_) => None,
    }
}
