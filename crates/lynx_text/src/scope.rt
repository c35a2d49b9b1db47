//! What the lines of a hop can name.

ghost use Rattle.std.specs.Prelude.{◌<◌, ◌≡◌, true, false, nat_lt, IfOk, OnOk};
ghost use Rattle.lynx_names.specs.declared.limits.TheConstants.{MAX_ACTIONS};
ghost use Rattle.lynx_lex.specs.Digits.{read_number, begins_with_digit};
ghost use Rattle.lynx_lex.specs.Gives.{Gives};
ghost use Rattle.lynx_set.specs.Names.{place_of, place_below};
ghost use Rattle.lynx_set.specs.Scopes.{is_home};
ghost use Rattle.lynx_text.specs.Reading.{name_of, new_name, known_name, table_of, read_key, operand_of};
ghost use Rattle.lynx_lex.specs.Lines.{only_if};

use lynx_lex::number::number;
use lynx_lex::{FaultKind, Name};
use lynx_names::limits::MAX_ACTIONS;
use lynx_names::{ServerId, TableId};
use lynx_set::{ChainSet, Key, Operand};

/// What an action may name, and where it stands.
#[derive(Clone, Copy)]
pub(crate) struct Scope<'a> {
    /// The tables and their shards.
    pub set: &'a ChainSet,
    /// How many of the names are parameters.
    pub parameters: usize,
    /// The parameters, and the names bound so far.
    pub names: &'a [Name],
    /// Whether the hop is the program's first.
    pub is_first: bool,
    /// The server of the hop.
    pub server: ServerId,
    /// How many actions the hop has so far.
    pub actions: usize,
}

impl Scope<'_> {
    /// Whether the hop may have one more action.
    pub fn has_room(&self) -> Result<(), FaultKind>
        ensures value { Gives (λ x. x) result (only_if (nat_lt self.now.actions MAX_ACTIONS) tt) }
        ensures room { OnOk result (self.now.actions < MAX_ACTIONS) }
    {
        if self.actions < MAX_ACTIONS {
            Ok(())
        } else {
            Err(FaultKind::LimitPassed)
        }
    }

    /// A name that the program hasn't yet.
    pub fn new_name(&self, word: &[u8]) -> Result<Name, FaultKind>
        ensures { Gives (λ name. name) result (new_name self.now.names.now word.now) }
    {
        new_name(self.names, word)
    }

    /// The table of that name.
    pub fn table(&self, word: &[u8]) -> Result<TableId, FaultKind>
        ensures { Gives (λ table. table) result (table_of self.now.set.now.tables word.now) }
    {
        let name = name_of(word)?;
        self.set.find_table(&name).ok_or(FaultKind::Unknown)
    }

    /// A number, or a parameter.
    pub fn key(&self, word: &[u8]) -> Result<Key, FaultKind>
        ensures { Gives (λ key. key) result
            (read_key self.now.names.now self.now.parameters word.now) }
    {
        if begins_with_digit(word) {
            return Ok(Key::Literal(number_of(word)?));
        }
        let place = known_name(self.names, word)?;
        if usize::from(place) < self.parameters {
            Ok(Key::Param(place))
        } else {
            Err(FaultKind::Unknown)
        }
    }

    /// A number, or a name of the program.
    pub fn operand(&self, word: &[u8]) -> Result<Operand, FaultKind>
        ensures { Gives (λ value. value) result (operand_of self.now.names.now word.now) }
    {
        if begins_with_digit(word) {
            return Ok(Operand::Number(number_of(word)?));
        }
        Ok(Operand::Name(known_name(self.names, word)?))
    }

    /// A literal key is at the hop's server.
    pub fn is_home(&self, table: TableId, key: Key) -> Result<(), FaultKind>
        ensures { Gives (λ x. x) result (only_if
            (is_home self.now.set.now.shards self.now.server table key) tt) }
    {
        match key {
            Key::Literal(key) => {
                if self.set.shards().server_of(table, key) == self.server {
                    Ok(())
                } else {
                    Err(FaultKind::LiteralElsewhere)
                }
            }
            Key::Param(_) => Ok(()),
        }
    }
}

/// The place of a name that is known.
pub(crate) fn known_name(names: &[Name], word: &[u8]) -> Result<u8, FaultKind>
    ensures { Gives (λ place. place) result (known_name names.now word.now) }
{
    let name = name_of(word)?;
    place_of(names, &name).ok_or(FaultKind::Unknown)
}

/// A name that isn't among these.
pub(crate) fn new_name(names: &[Name], word: &[u8]) -> Result<Name, FaultKind>
    ensures { Gives (λ name. name) result (new_name names.now word.now) }
{
    let name = name_of(word)?;
    match position_of(names, &name) {
        Some(_) => Err(FaultKind::Repeated),
        None => Ok(name),
    }
}

/// The name that the word spells.
pub(crate) fn name_of(word: &[u8]) -> Result<Name, FaultKind>
    ensures { Gives (λ name. name) result (name_of word.now) }
{
    Name::new(word).ok_or(FaultKind::BadName)
}

/// The number that the word spells.
pub(crate) fn number_of(word: &[u8]) -> Result<u64, FaultKind>
    ensures { Gives (λ number. number) result (read_number word.now) }
{
    number(word).ok_or(FaultKind::BadNumber)
}

/// The place of a name among the first 256.
fn place_of(names: &[Name], name: &Name) -> Option<u8>
    ensures { result ≡ place_below 256 names.now name.now }
{
    let place = position_of(names, name)?;
    if place < 256 { Some(place as u8) } else { None }
}

fn position_of(names: &[Name], name: &Name) -> Option<usize>
    ensures { result ≡ place_of names.now name.now }
{
    names
        .iter()
        .position(|known| known.as_bytes() == name.as_bytes())
}

fn begins_with_digit(word: &[u8]) -> bool
    ensures { result ≡ begins_with_digit word.now }
{
    match word {
        [first, ..] => first.is_ascii_digit(),
        [] => false,
    }
}
