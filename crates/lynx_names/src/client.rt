ghost use Rattle.std.specs.Prelude.{◌≡◌, ℕ};

use std::marker::Model;

/// A client, which numbers its own requests.
#[derive(Clone, Copy, Debug, PartialEq, Eq, PartialOrd, Ord, Hash)]
pub struct ClientId {
    number: u64,
}

impl Model for ClientId {
    ghost Value = { ℕ };

    ghost view = { λ id. id.number };

    ghost inverse = { λ n. record { number = n } };
}

impl ClientId {
    pub fn new(number: u64) -> ClientId
        ensures { result ≡ number }
    {
        ClientId { number }
    }

    pub fn number(self) -> u64
        ensures { result ≡ self }
    {
        self.number
    }
}
