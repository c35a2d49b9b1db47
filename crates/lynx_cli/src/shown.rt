//! Names in fault lines.
use lynx_lex::Name;
use lynx_names::limits::MAX_NAME_BYTES;
use std::{fmt, str};

/// A name as a fault line shows it: what would break the line is escaped, as in `\n`.
#[derive(Clone, Copy, Debug, PartialEq, Eq)]
pub struct Shown<'a> {
    pub name: &'a str,
}

impl fmt::Display for Shown<'_> {
    ghost use Rattle.std.specs.Prelude.{None};

    ghost output = { λ _. None };

    fn fmt<W: fmt::Write>(&self, f: &mut fmt::Formatter<W>) -> fmt::Result {
        for c in self.name.chars() {
            if c.is_control() {
                write!(f, "{}", c.escape_default())?;
            } else {
                write!(f, "{c}")?;
            }
        }
        Ok(())
    }
}

/// The name of a table as a fault line shows it: its bytes, and zeros behind them. A fault that has
/// a `&str` has no type with a model beside it: the prover has no rule for `?` at such a one.
#[derive(Clone, Copy, Debug, PartialEq, Eq)]
pub struct ShownTable {
    pub bytes: [u8; MAX_NAME_BYTES],
    pub length: usize,
}

impl ShownTable {
    /// That name.
    pub fn new(name: &Name) -> ShownTable {
        let mut bytes = [0; MAX_NAME_BYTES];
        let mut length = 0usize;
        for (place, byte) in name.as_bytes().iter().enumerate() {
            if let Some(own) = bytes.get_mut(place) {
                *own = *byte;
                length = place.saturating_add(1);
            }
        }
        ShownTable { bytes, length }
    }
}

impl fmt::Display for ShownTable {
    ghost use Rattle.std.specs.Prelude.{None};

    ghost output = { λ _. None };

    fn fmt<W: fmt::Write>(&self, f: &mut fmt::Formatter<W>) -> fmt::Result {
        let Some(bytes) = self.bytes.get(..self.length) else {
            return Err(fmt::Error);
        };
        match str::from_utf8(bytes) {
            Ok(text) => f.write_str(text),
            Err(_) => Err(fmt::Error),
        }
    }
}
