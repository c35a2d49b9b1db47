ghost use Rattle.std.specs.Prelude.{◌≡◌};
ghost use Rattle.lynx_lex.specs.declared.fault.FaultKind.TheVariants.{Memory as NoMemory};

use lynx_names::Memory;
use lynx_shards::ShardFault;
use std::alloc::{AllocError, AllocFailed};
use std::marker::Model;
use thiserror::Error;

/// What is wrong with a text. It is printed as one word.
#[derive(Clone, Copy, Debug, PartialEq, Eq, Error)]
pub enum FaultKind {
    /// The text has more than 65,536 bytes.
    #[error("too-long")]
    TooLong,
    /// The first line isn't the version's.
    #[error("bad-version")]
    BadVersion,
    /// The line isn't words, or not those that can stand here.
    #[error("bad-line")]
    BadLine,
    /// A word that is to be a name isn't one.
    #[error("bad-name")]
    BadName,
    /// A word that is to be a number isn't one, or is too great.
    #[error("bad-number")]
    BadNumber,
    /// A new name is taken.
    #[error("repeated")]
    Repeated,
    /// A name or a server isn't declared, or can't stand here.
    #[error("unknown")]
    Unknown,
    /// A `need` stands in a later hop.
    #[error("need-not-first")]
    NeedNotFirst,
    /// There is one too many of what the line declares.
    #[error("limit-passed")]
    LimitPassed,
    /// A literal key isn't at its hop's server.
    #[error("literal-elsewhere")]
    LiteralElsewhere,
    /// A shard doesn't go on where the one before it ended. It is never for want of memory.
    #[error(transparent)]
    Shard(ShardFault),
    #[error("out of memory")]
    Memory,
}

/// The first fault of a text: its line, counted from 1, and which word of the line is at fault,
/// counted from 1, or 0 where it isn't one word or isn't known. The line of [`FaultKind::TooLong`]
/// is 0.
#[derive(Clone, Copy, Debug, PartialEq, Eq, Error)]
#[error("line {line}: {kind}")]
pub struct TextFault {
    pub kind: FaultKind,
    pub line: usize,
    pub word: usize,
}

/// The fault of a line, and the word of it that is at fault. Contracts see its kind alone.
#[derive(Debug, Drop)]
pub struct WordFault {
    kind: FaultKind,
    word: usize,
}

impl Model for WordFault {
    ghost use Rattle.lynx_lex.specs.declared.fault.FaultKind.{FaultKind};

    ghost Value = { FaultKind };

    ghost view = { λ fault. fault.kind };
}

impl WordFault {
    /// A fault of the word of that place, counted from 1, or 0 where it isn't one word.
    pub fn new(kind: FaultKind, word: usize) -> WordFault
        ensures { result ≡ kind }
    {
        WordFault { kind, word }
    }

    /// The fault of a text whose line of that number has this one.
    pub fn on(self, line: usize) -> TextFault
        ensures kind { result.kind ≡ self }
        ensures line { result.line ≡ line }
    {
        TextFault {
            kind: self.kind,
            line,
            word: self.word,
        }
    }
}

/// What was read of the word of that place, counted from 1.
pub fn at<T>(word: usize, read: Result<T, FaultKind>) -> Result<T, WordFault>
    ensures { result ≡ read }
{
    match read {
        Ok(value) => Ok(value),
        Err(kind) => Err(WordFault { kind, word }),
    }
}

impl From<FaultKind> for WordFault {
    ghost from_gives = { λ kind fault. fault ≡ kind };

    fn from(kind: FaultKind) -> WordFault {
        WordFault { kind, word: 0 }
    }
}

impl From<Memory> for FaultKind {
    ghost from_gives = { λ _ kind. kind ≡ NoMemory };

    fn from(_: Memory) -> FaultKind {
        FaultKind::Memory
    }
}

impl From<AllocError> for FaultKind {
    ghost from_gives = { λ _ kind. kind ≡ NoMemory };

    fn from(_: AllocError) -> FaultKind {
        FaultKind::Memory
    }
}

impl<T: Drop> From<AllocFailed<T>> for FaultKind {
    ghost from_gives = { λ _ kind. kind ≡ NoMemory };

    fn from(_: AllocFailed<T>) -> FaultKind {
        FaultKind::Memory
    }
}

impl From<Memory> for WordFault {
    ghost from_gives = { λ _ fault. fault ≡ NoMemory };

    fn from(_: Memory) -> WordFault {
        WordFault::new(FaultKind::Memory, 0)
    }
}

impl<T: Drop> From<AllocFailed<T>> for WordFault {
    ghost from_gives = { λ _ fault. fault ≡ NoMemory };

    fn from(_: AllocFailed<T>) -> WordFault {
        WordFault::new(FaultKind::Memory, 0)
    }
}

impl From<ShardFault> for FaultKind {
    ghost use Rattle.lynx_lex.specs.Gives.{shard_kind};

    ghost from_gives = { λ fault kind. kind ≡ shard_kind fault };

    fn from(fault: ShardFault) -> FaultKind {
        match fault {
            ShardFault::Memory => FaultKind::Memory,
            fault => FaultKind::Shard(fault),
        }
    }
}
