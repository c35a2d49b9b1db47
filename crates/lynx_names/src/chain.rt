use crate::server::ServerId;
use std::fmt;

/// A begun chain: the `index`th of its origin, counted from 0. It is printed as `ORIGIN:INDEX`.
#[derive(Clone, Copy, Debug, PartialEq, Eq, PartialOrd, Ord, Hash)]
pub struct ChainId {
    pub origin: ServerId,
    pub index: u64,
}

impl fmt::Display for ChainId {
    ghost use Rattle.std.specs.Prelude.{Some};
    ghost use Rattle.lynx_names.specs.Chain.{chain_text};

    ghost output = { λ chain. Some (chain_text chain) };

    fn fmt<W: fmt::Write>(&self, f: &mut fmt::Formatter<W>) -> fmt::Result {
        write!(f, "{}:{}", self.origin, self.index)
    }
}
