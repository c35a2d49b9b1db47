ghost use Rattle.std.specs.Prelude.{◌≡◌, ◌↔◌, IsSome, IfSome, IsTrue};
ghost use Rattle.lynx_lex.specs.Word.{is_name, is_letter, is_name_byte};
ghost use Rattle.std.specs.List.{list_all};

use lynx_names::limits::MAX_NAME_BYTES;
use lynx_names::{Memory, TryCopy};
use std::alloc::Global;
use std::marker::Model;
use std::{fmt, str};

/// A name of a table, a program, a parameter or a bound value: 1 to 24 bytes, a letter a to z
/// first, then letters, digits and underscores. It is printed as it is spelled.
#[derive(Clone, Copy, Debug, PartialEq, Eq, Hash)]
pub struct Name {
    /// The bytes, and zeros behind them.
    bytes: [u8; MAX_NAME_BYTES],
    length: usize,
}

impl Model for Name {
    ghost use Rattle.std.specs.Prelude.{List, ℕ};

    ghost Value = { List ℕ };

    ghost use Rattle.lynx_lex.specs.Name.{name_bytes, IsPadded, padded, padded-name_bytes};

    ghost view = { name_bytes };

    ghost invariant = { IsPadded };

    ghost inverse = { padded };

    ghost inverse_ok = { padded-name_bytes };
}

impl Name {
    /// The name of this spelling, or None where the word is no name.
    pub fn new(word: &[u8]) -> Option<Name>
        ensures valid { IsSome result ↔ IsTrue (is_name word.now) }
        ensures value { IfSome result (λ name. name ≡ word.now) }
    {
        if !is_name(word) {
            return None;
        }
        let mut bytes = [0; MAX_NAME_BYTES];
        bytes[..word.len()].copy_from_slice(word);
        Some(Name {
            bytes,
            length: word.len(),
        })
    }

    /// The bytes of its spelling.
    pub fn as_bytes(&self) -> &[u8]
        ensures { result.now ≡ self.now }
    {
        &self.bytes[..self.length]
    }
}

impl TryCopy for Name {
    fn copy(&self, _alloc: Global) -> Result<Name, Memory> {
        Ok(*self)
    }
}

impl fmt::Display for Name {
    ghost use Rattle.std.specs.Prelude.{Some};

    ghost output = { λ name. Some name };

    fn fmt<W: fmt::Write>(&self, f: &mut fmt::Formatter<W>) -> fmt::Result {
        match str::from_utf8(self.as_bytes()) {
            Ok(text) => f.write_str(text),
            Err(_) => Err(fmt::Error),
        }
    }
}

/// Whether the word can be a name.
fn is_name(word: &[u8]) -> bool
    ensures { result ≡ is_name word.now }
{
    let [first, rest @ ..] = word else {
        return false;
    };
    is_letter(*first) && rest.len() < MAX_NAME_BYTES && are_name_bytes(rest)
}

fn are_name_bytes(bytes: &[u8]) -> bool
    ensures { result ≡ list_all is_name_byte bytes.now }
{
    bytes.iter().all(|byte| is_name_byte(*byte))
}

fn is_letter(byte: u8) -> bool
    ensures { result ≡ is_letter byte }
{
    b'a' <= byte && byte <= b'z'
}

fn is_name_byte(byte: u8) -> bool
    ensures { result ≡ is_name_byte byte }
{
    is_letter(byte) || (b'0' <= byte && byte <= b'9') || byte == b'_'
}
