use lynx_names::Memory;
use std::alloc::{AllocError, AllocFailed};
use thiserror::Error;

/// Why no item could be read.
#[derive(Clone, Copy, Debug, PartialEq, Eq, Error)]
pub enum DecodeFault {
    /// The bytes end inside an item.
    #[error("the bytes end inside an item")]
    Short = 1,
    /// A byte that is no tag stands where an item is to begin.
    #[error("no item begins with this byte")]
    BadTag,
    /// The length of a body is above 2,048, or its fields end elsewhere.
    #[error("the length of an item is wrong")]
    BadLength,
    /// A value or a count is outside its range, or the servers of a chain's numbers don't rise.
    #[error("a field is outside its range")]
    OutOfRange,
    /// Want of memory. Nothing has changed.
    #[error("out of memory")]
    Memory,
}

impl DecodeFault {
    ghost use Rattle.std.specs.Prelude.{◌≡◌};
    ghost use Rattle.lynx_codec.specs.Faults.{number_of};

    /// The number by which the fault is named to others: docs/FORMATS.md.
    pub fn number(self) -> u8
        ensures { result ≡ number_of self }
    {
        self as u8
    }

    /// The want of memory that a fault is where nothing else can be wrong.
    pub fn want_of_memory(self) -> Memory
        requires { self ≡ DecodeFault.Memory }
    {
        match self {
            DecodeFault::Memory => Memory,
            _ => unreachable!(),
        }
    }
}

impl From<Memory> for DecodeFault {
    ghost use Rattle.std.specs.Prelude.{◌≡◌};
    ghost use Rattle.lynx_codec.specs.declared.fault.DecodeFault.TheVariants.{Memory as WantOfMemory};

    ghost from_gives = { λ _ fault. fault ≡ WantOfMemory };

    fn from(_: Memory) -> DecodeFault {
        DecodeFault::Memory
    }
}

impl From<AllocError> for DecodeFault {
    ghost use Rattle.std.specs.Prelude.{◌≡◌};
    ghost use Rattle.lynx_codec.specs.declared.fault.DecodeFault.TheVariants.{Memory as WantOfMemory};

    ghost from_gives = { λ _ fault. fault ≡ WantOfMemory };

    fn from(_: AllocError) -> DecodeFault {
        DecodeFault::Memory
    }
}

impl<T: Drop> From<AllocFailed<T>> for DecodeFault {
    ghost use Rattle.std.specs.Prelude.{◌≡◌};
    ghost use Rattle.lynx_codec.specs.declared.fault.DecodeFault.TheVariants.{Memory as WantOfMemory};

    ghost from_gives = { λ _ fault. fault ≡ WantOfMemory };

    fn from(_: AllocFailed<T>) -> DecodeFault {
        DecodeFault::Memory
    }
}
