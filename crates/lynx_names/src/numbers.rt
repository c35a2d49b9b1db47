use crate::items::Items;
use crate::memory::Memory;
use crate::server::ServerId;
use crate::try_copy::TryCopy;
use std::alloc::Global;

/// The number of a chain for one server that it visits.
#[derive(Clone, Copy, Debug, PartialEq, Eq)]
pub struct NumberAt {
    pub server: ServerId,
    pub number: u64,
}

impl TryCopy for NumberAt {
    fn copy(&self, _alloc: Global) -> Result<NumberAt, Memory> {
        Ok(*self)
    }
}

/// A chain's numbers, one for each server that it visits, servers rising.
pub type Numbers = Items<NumberAt>;
