ghost use Rattle.std.specs.Prelude.{◌≡◌, ◌<◌, ◌≤◌, ◌↔◌, ℕ, Some, IsSome, IfSome};
ghost use Rattle.lynx_names.specs.declared.limits.TheConstants.{MAX_SERVERS};

use crate::limits::MAX_SERVERS;
use std::fmt;
use std::marker::Model;

/// A server, numbered from 0 in a set.
#[derive(Clone, Copy, Debug, PartialEq, Eq, PartialOrd, Ord, Hash)]
pub struct ServerId {
    number: u8,
}

impl Model for ServerId {
    ghost Value = { ℕ };

    ghost view = { λ id. id.number };

    ghost invariant = { λ id. id.number < MAX_SERVERS };

    ghost inverse = { λ n. record { number = n } };
}

impl ServerId {
    /// None where the number is outside its range, below [`MAX_SERVERS`].
    pub fn new(number: u8) -> Option<ServerId>
        ensures valid { IsSome result ↔ (number < MAX_SERVERS) }
        ensures value { IfSome result (λ id. id ≡ number) }
    {
        if number < MAX_SERVERS {
            Some(ServerId { number })
        } else {
            None
        }
    }

    /// The server of that number among so many, None where there are no more than that.
    pub fn among(servers: u8, number: u64) -> Option<ServerId>
        requires { servers ≤ MAX_SERVERS }
        ensures valid { IsSome result ↔ (number < servers) }
        ensures value { IfSome result (λ id. id ≡ number) }
    {
        if number < u64::from(servers) {
            Some(ServerId {
                number: number as u8,
            })
        } else {
            None
        }
    }

    /// Server 0, which each set has.
    pub fn first() -> ServerId
        ensures { result ≡ 0 }
    {
        ServerId { number: 0 }
    }

    /// The server of a number that is known to be in range.
    pub fn at(number: u8) -> ServerId
        requires { number < MAX_SERVERS }
        ensures { result ≡ number }
    {
        ServerId { number }
    }

    /// The number, from 0.
    pub fn number(self) -> u8
        ensures value { result ≡ self }
        ensures in_range { result < MAX_SERVERS }
    {
        self.number
    }

    /// The number as a place in a list.
    pub fn index(self) -> usize
        ensures value { result ≡ self }
        ensures in_range { result < MAX_SERVERS }
    {
        usize::from(self.number)
    }
}

impl fmt::Display for ServerId {
    ghost use Rattle.std.specs.Prelude.{Some};
    ghost use Rattle.std.specs.Fmt.{decimal};

    ghost output = { λ id. Some (decimal id) };

    fn fmt<W: fmt::Write>(&self, f: &mut fmt::Formatter<W>) -> fmt::Result {
        fmt::Display::fmt(&self.number, f)
    }
}
