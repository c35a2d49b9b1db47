ghost use Rattle.std.specs.Prelude.{◌≡◌, ◌<◌, ◌↔◌, ℕ, Some, IsSome, IfSome};
ghost use Rattle.lynx_names.specs.declared.limits.TheConstants.{MAX_PROGRAMS};

use crate::limits::MAX_PROGRAMS;
use std::fmt;
use std::marker::Model;

/// A program, numbered from 0 in order of declaration.
#[derive(Clone, Copy, Debug, PartialEq, Eq, PartialOrd, Ord, Hash)]
pub struct ProgramId {
    number: u8,
}

impl Model for ProgramId {
    ghost Value = { ℕ };

    ghost view = { λ id. id.number };

    ghost invariant = { λ id. id.number < MAX_PROGRAMS };

    ghost inverse = { λ n. record { number = n } };
}

impl ProgramId {
    /// None where the number is outside its range, below [`MAX_PROGRAMS`].
    pub fn new(number: u8) -> Option<ProgramId>
        ensures valid { IsSome result ↔ (number < MAX_PROGRAMS) }
        ensures value { IfSome result (λ id. id ≡ number) }
    {
        if number < MAX_PROGRAMS {
            Some(ProgramId { number })
        } else {
            None
        }
    }

    /// The number, from 0.
    pub fn number(self) -> u8
        ensures value { result ≡ self }
        ensures in_range { result < MAX_PROGRAMS }
    {
        self.number
    }

    /// The number as a place in a list.
    pub fn index(self) -> usize
        ensures value { result ≡ self }
        ensures in_range { result < MAX_PROGRAMS }
    {
        usize::from(self.number)
    }
}

impl fmt::Display for ProgramId {
    ghost use Rattle.std.specs.Prelude.{Some};
    ghost use Rattle.std.specs.Fmt.{decimal};

    ghost output = { λ id. Some (decimal id) };

    fn fmt<W: fmt::Write>(&self, f: &mut fmt::Formatter<W>) -> fmt::Result {
        fmt::Display::fmt(&self.number, f)
    }
}
