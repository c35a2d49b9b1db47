ghost use Rattle.std.specs.Prelude.{◌≡◌, ◌<◌, ◌≤◌, ◌+◌, ◌==◌, ◌&&◌, ℕ, suc, length, nat_le, nat_lt};
ghost use Rattle.lynx_names.specs.declared.limits.TheConstants.{MAX_SERVERS, MAX_PROGRAMS, MAX_HOPS, MAX_ACTIONS};
ghost use Rattle.lynx_codec.specs.Reading.{Reads, such_that, byte_at, byte_below, word_at, flag_at, stamp_at, chain_at, values_at, repeated, rising_at, numbers_at, result_lists_at};

use crate::fault::DecodeFault;
use lynx_entry::ResultLists;
use lynx_names::limits::{MAX_ACTIONS, MAX_HOPS};
use lynx_names::{ChainId, NumberAt, Numbers, ProgramId, ServerId, Stamp, Values};
use std::alloc::Global;
use std::marker::Model;

/// The bytes of a body that are still to be read. After a fault it is left anywhere.
#[derive(Debug, Drop)]
pub struct Body<'a> {
    rest: &'a [u8],
}

impl<'a> Model for Body<'a> {
    ghost use Rattle.std.specs.Prelude.{ℕ, List};

    ghost Value = { List ℕ };

    ghost view = { λ body. body.rest.now };
}

impl<'a> Body<'a> {
    pub fn new(bytes: &'a [u8]) -> Body<'a>
        ensures { result ≡ bytes.now }
    {
        Body { rest: bytes }
    }

    pub fn is_empty(&self) -> bool
        ensures { result ≡ (length self.now == 0) }
    {
        self.rest.is_empty()
    }

    pub fn byte(&mut self) -> Result<u8, DecodeFault>
        ensures { Reads result self.new (byte_at self.old) }
    {
        match self.rest {
            [] => Err(DecodeFault::BadLength),
            [byte, rest @ ..] => {
                self.rest = rest;
                Ok(*byte)
            }
        }
    }

    #[tactic(auto, unfolding(crate::specs::Reading::word_at))]
    pub fn word(&mut self) -> Result<u64, DecodeFault>
        ensures { Reads result self.new (word_at self.old) }
    {
        if self.rest.len() < 8 {
            return Err(DecodeFault::BadLength);
        }
        let (front, rest) = self.rest.split_at(8);
        self.rest = rest;
        Ok(u64::from_be_bytes([
            front[0], front[1], front[2], front[3], front[4], front[5], front[6], front[7],
        ]))
    }

    /// A byte below that limit.
    #[tactic(auto, unfolding(crate::specs::Reading::byte_below))]
    pub fn byte_below(&mut self, limit: usize) -> Result<u8, DecodeFault>
        ensures { Reads result self.new (byte_below limit self.old) }
    {
        let byte = self.byte()?;
        if usize::from(byte) < limit {
            Ok(byte)
        } else {
            Err(DecodeFault::OutOfRange)
        }
    }

    #[tactic(auto, unfolding(crate::specs::Reading::flag_at))]
    pub fn flag(&mut self) -> Result<bool, DecodeFault>
        ensures { Reads result self.new (flag_at self.old) }
    {
        Ok(self.byte_below(2)? == 1)
    }

    #[tactic(auto, unfolding(crate::specs::Reading::byte_below))]
    pub fn program(&mut self) -> Result<ProgramId, DecodeFault>
        ensures { Reads result self.new (byte_below MAX_PROGRAMS self.old) }
    {
        let byte = self.byte()?;
        ProgramId::new(byte).ok_or(DecodeFault::OutOfRange)
    }

    /// A server of that number or a greater one.
    fn server_from(&mut self, least: u8) -> Result<ServerId, DecodeFault>
        ensures { Reads result self.new
            (such_that (λ b. nat_le least b && nat_lt b MAX_SERVERS) byte_at self.old) }
    {
        let byte = self.byte()?;
        if byte < least {
            return Err(DecodeFault::OutOfRange);
        }
        ServerId::new(byte).ok_or(DecodeFault::OutOfRange)
    }

    #[tactic(auto, unfolding(crate::specs::Reading::byte_below))]
    fn server(&mut self) -> Result<ServerId, DecodeFault>
        ensures { Reads result self.new (byte_below MAX_SERVERS self.old) }
    {
        let byte = self.byte()?;
        ServerId::new(byte).ok_or(DecodeFault::OutOfRange)
    }

    #[tactic(auto, unfolding(crate::specs::Reading::stamp_at))]
    pub fn stamp(&mut self) -> Result<Stamp, DecodeFault>
        ensures { Reads result self.new (stamp_at self.old) }
    {
        let time = self.word()?;
        Stamp::new(time).ok_or(DecodeFault::OutOfRange)
    }

    #[tactic(auto, unfolding(crate::specs::Reading::chain_at))]
    pub fn chain(&mut self) -> Result<ChainId, DecodeFault>
        ensures { Reads result self.new (chain_at self.old) }
    {
        let origin = self.server()?;
        let index = self.word()?;
        Ok(ChainId { origin, index })
    }

    /// At most so many values.
    #[tactic(auto, unfolding(crate::specs::Reading::values_at))]
    pub fn values(&mut self, alloc: Global, most: usize) -> Result<Values, DecodeFault>
        requires { most < 256 }
        ensures { Reads result self.new (values_at most self.old) }
    {
        let count = self.byte_below(most + 1)?;
        self.words(alloc, count)
    }

    fn words(&mut self, alloc: Global, count: u8) -> Result<Values, DecodeFault>
        ensures { Reads result self.new (repeated word_at count self.old) }
    {
        let mut values = Vec::with_capacity(alloc, usize::from(count))?;
        for _ in 0..count {
            let value = self.word()?;
            values.push(value)?;
        }
        Ok(Values::from_vec(values))
    }

    #[tactic(auto, unfolding(crate::specs::Reading::numbers_at))]
    pub fn numbers(&mut self, alloc: Global) -> Result<Numbers, DecodeFault>
        ensures { Reads result self.new (numbers_at self.old) }
    {
        let count = self.byte()?;
        if count < 1 || MAX_HOPS < usize::from(count) {
            return Err(DecodeFault::OutOfRange);
        }
        self.rising(alloc, count)
    }

    fn rising(&mut self, alloc: Global, count: u8) -> Result<Numbers, DecodeFault>
        ensures { Reads result self.new (rising_at 0 count self.old) }
    {
        let mut numbers = Vec::with_capacity(alloc, usize::from(count))?;
        let mut least = 0;
        for _ in 0..count {
            let server = self.server_from(least)?;
            let number = self.word()?;
            numbers.push(NumberAt { server, number })?;
            least = server.number() + 1;
        }
        Ok(Numbers::from_vec(numbers))
    }

    #[tactic(auto, unfolding(crate::specs::Reading::result_lists_at))]
    pub fn result_lists(&mut self, alloc: Global) -> Result<ResultLists, DecodeFault>
        ensures { Reads result self.new (result_lists_at self.old) }
    {
        let count = self.byte_below(MAX_HOPS + 1)?;
        self.lists(alloc, count)
    }

    fn lists(&mut self, alloc: Global, count: u8) -> Result<ResultLists, DecodeFault>
        ensures { Reads result self.new (repeated (values_at MAX_ACTIONS) count self.old) }
    {
        let mut lists = Vec::with_capacity(alloc, usize::from(count))?;
        for _ in 0..count {
            let results = self.values(alloc, MAX_ACTIONS)?;
            lists.push(results)?;
        }
        Ok(ResultLists::from_vec(lists))
    }
}
