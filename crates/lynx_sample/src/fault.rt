use lynx_names::Memory;
use lynx_report::RunFault;
use std::alloc::AllocError;
use thiserror::Error;

/// Why no script was written, or not all of it.
#[derive(Clone, Copy, Debug, PartialEq, Eq, Error)]
pub enum SampleFault {
    /// The set text is faulty, memory is wanting, or the script can't be written. It is never a
    /// fault of a script's text.
    #[error("{0}")]
    Run(RunFault),
    /// A cycle was asked for, and no run that was tried ended with one.
    #[error("no run was found that ends with a cycle")]
    NoCycle,
    /// A script has at most 65,536 bytes.
    #[error("the script would be over 65536 bytes")]
    TooLong,
}

impl From<RunFault> for SampleFault {
    ghost use Rattle.std.specs.Prelude.{◌≡◌};
    ghost use Rattle.lynx_sample.specs.declared.fault.SampleFault.TheVariants.{Run};

    ghost from_gives = { λ given fault. fault ≡ Run given };

    fn from(fault: RunFault) -> SampleFault {
        SampleFault::Run(fault)
    }
}

impl From<Memory> for SampleFault {
    ghost use Rattle.std.specs.Prelude.{◌≡◌};
    ghost use Rattle.lynx_sample.specs.declared.fault.SampleFault.TheVariants.{Run};
    ghost use Rattle.lynx_report.specs.declared.run.RunFault.TheVariants.{Memory as NoMemory};

    ghost from_gives = { λ _ fault. fault ≡ Run NoMemory };

    fn from(_: Memory) -> SampleFault {
        SampleFault::Run(RunFault::Memory)
    }
}

impl From<AllocError> for SampleFault {
    ghost use Rattle.std.specs.Prelude.{◌≡◌};
    ghost use Rattle.lynx_sample.specs.declared.fault.SampleFault.TheVariants.{Run};
    ghost use Rattle.lynx_report.specs.declared.run.RunFault.TheVariants.{Memory as NoMemory};

    ghost from_gives = { λ _ fault. fault ≡ Run NoMemory };

    fn from(_: AllocError) -> SampleFault {
        SampleFault::Run(RunFault::Memory)
    }
}
