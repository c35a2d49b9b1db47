//! The states of a begin. Each must be spent by the call that makes the next.
ghost use Rattle.std.specs.Prelude.{◌≡◌, ◌+◌, ◌<◌, None, IfOk, OnErr, OnOk, Some, length, max};
ghost use Rattle.lynx_names.specs.declared.limits.TheConstants.{MAX_ENTRIES};
ghost use Rattle.lynx_rules.specs.Tables.{clock_of};
ghost use Rattle.lynx_rules.specs.Turns.{begun_count, number_for};
ghost use Rattle.lynx_server.specs.inner.Begins.{AreAlike, CanBegin, HasRefused, HasRun, HasStepped, IsDue, IsTaken, KeepsBegin, begun_entry};

use crate::books::Books;
use lynx_cells::Changes;
use lynx_entry::{Answer, BegunEntry, Entry, NumberAt, Numbers, RefusedEntry, Request};
use lynx_hops::{HopFault, Ran, run_hop};
use lynx_keep::{KeepFault, Keeper};
use lynx_names::{ChainId, Memory, Stamp, TryCopy, Values, learn};
use lynx_rules::visits::visited;
use lynx_seq::Draw;
use std::alloc::Global;

/// A checked request, with its draw.
#[derive(Debug)]
pub struct Taken {
    request: Request,
    seen: Stamp,
    stamp: Stamp,
    draw: Draw,
}

/// A request whose hop ran.
#[derive(Debug)]
pub struct RanStep {
    taken: Taken,
    ran: Ran,
}

/// A request whose hop refused. Its draw was given back.
#[derive(Debug)]
pub struct RefusedStep {
    request: Request,
    seen: Stamp,
    stamp: Stamp,
    need: u8,
}

/// A request whose hop was run.
#[derive(Debug)]
pub enum Stepped {
    Ran(RanStep),
    Refused(RefusedStep),
}

/// A begin that was kept.
#[derive(Debug)]
pub struct Kept {
    answer: Answer,
}

impl Books {
    /// Draws the numbers of a request.
    pub(crate) fn take(
        &mut self,
        alloc: Global,
        request: Request,
        seen: Stamp,
        stamp: Stamp,
    ) -> Result<Taken, Memory>
        requires free { self.old.out ≡ None }
        requires room { length self.old.history < MAX_ENTRIES }
        requires stamp { stamp ≡ max (clock_of self.old.history) seen + 1 }
        ensures taken { IfOk result (IsTaken self.new request seen) }
        ensures alike { AreAlike self.old self.new }
        ensures err { OnErr result (self.new ≡ self.old) }
    {
        let visits = visited(&self.set, request.program);
        let draw = self.sequencer.draw(alloc, visits)?;
        Ok(Taken {
            request,
            seen,
            stamp,
            draw,
        })
    }
}

impl Taken {
    /// The draw goes back.
    fn release(self, books: &mut Books)
        requires { books.old.out ≡ Some self.draw }
        ensures { books.new ≡ record books.old { out = None } }
    {
        let Taken {
            request: _,
            seen: _,
            stamp: _,
            draw,
        } = self;
        draw.give_back(&mut books.sequencer);
    }

    /// Runs the hop. A draw that isn't used goes back.
    pub(crate) fn run(self, alloc: Global, books: &mut Books) -> Result<Stepped, Memory>
        requires { IsTaken books.old self.request self.seen self }
        ensures stepped { IfOk result (HasStepped books.new self.request self.seen) }
        ensures alike { AreAlike books.old books.new }
        ensures err { OnErr result (books.new.out ≡ None) }
    {
        let args = self.request.args.as_slice();
        match run_hop(
            alloc,
            &books.set,
            self.request.program,
            0,
            args,
            &[],
            &books.cells,
        ) {
            Ok(ran) => Ok(Stepped::Ran(RanStep { taken: self, ran })),
            Err(HopFault::Refused(need)) => Ok(Stepped::Refused(self.refuse(books, need))),
            Err(HopFault::Memory) => {
                self.release(books);
                Err(Memory)
            }
        }
    }

    /// The hop refused by that need. The draw goes back.
    fn refuse(self, books: &mut Books, need: u8) -> RefusedStep
        requires { books.old.out ≡ Some self.draw }
        ensures books { books.new ≡ record books.old { out = None } }
        ensures step { result ≡ record
            { request = self.request; seen = self.seen; stamp = self.stamp; need = need } }
    {
        let Taken {
            request,
            seen,
            stamp,
            draw,
        } = self;
        draw.give_back(&mut books.sequencer);
        RefusedStep {
            request,
            seen,
            stamp,
            need,
        }
    }
}

/// What a begun chain will need, made before the commit.
#[derive(Drop)]
struct Ready {
    begun: BegunEntry,
    told: Values,
}

impl Books {
    /// The entry of a chain that begins next, with its results once more for the answer.
    fn ready(
        &self,
        alloc: Global,
        request: Request,
        seen: Stamp,
        stamp: Stamp,
        numbers: &[NumberAt],
        results: Values,
    ) -> Result<Ready, Memory>
        ensures begun { IfOk result (λ ready. ready.begun
            ≡ begun_entry self.now request seen stamp numbers.now results) }
        ensures told { IfOk result (λ ready. ready.told ≡ results) }
        ensures home { OnOk result (number_for self.now.set self.now.history self.now.server
            ≡ begun_count self.now.history) }
    {
        let told = results.copy(alloc)?;
        let numbers = Numbers::from_vec(Vec::from_slice(alloc, numbers)?);
        let chain = ChainId {
            origin: self.server,
            index: self.chains.len() as u64,
        };
        let begun = BegunEntry {
            request,
            seen,
            chain,
            numbers,
            stamp,
            results,
        };
        Ok(Ready { begun, told })
    }
}

impl RanStep {
    /// Keeps the entry. A refused commit gives the draw back.
    pub(crate) fn keep<K: Keeper>(
        self,
        alloc: Global,
        books: &mut Books,
        keeper: &mut K,
    ) -> Result<Kept, KeepFault>
        requires ran { HasRun books.old self.taken.request self.taken.seen self }
        requires due { IsDue books.old self.taken.request self.taken.seen }
        ensures { KeepsBegin K.terms keeper.old keeper.new
            books.old self.taken.request self.taken.seen result books.new }
    {
        let RanStep { taken, ran } = self;
        let Taken {
            request,
            seen,
            stamp,
            draw,
        } = taken;
        let (results, changes) = ran.spend();
        let Ok(ready) = books.ready(alloc, request, seen, stamp, draw.numbers(), results) else {
            draw.give_back(&mut books.sequencer);
            return Err(KeepFault::Memory);
        };
        let Ready { begun, told } = ready;
        let answer = Answer::Begun {
            chain: begun.chain,
            stamp: begun.stamp,
            results: told,
            again: false,
        };
        books.keep_begun(alloc, keeper, draw, begun, changes)?;
        Ok(Kept { answer })
    }
}

impl RefusedStep {
    /// Keeps the entry.
    pub(crate) fn keep<K: Keeper>(
        self,
        alloc: Global,
        books: &mut Books,
        keeper: &mut K,
    ) -> Result<Kept, KeepFault>
        requires refused { HasRefused books.old self.request self.seen self }
        requires due { IsDue books.old self.request self.seen }
        ensures { KeepsBegin K.terms keeper.old keeper.new
            books.old self.request self.seen result books.new }
    {
        let RefusedStep {
            request,
            seen,
            stamp,
            need,
        } = self;
        let entry = Entry::Refused(RefusedEntry {
            request,
            seen,
            need,
            stamp,
        });
        learn(books.set());
        books.keep_other(alloc, keeper, entry, Changes::new(alloc))?;
        let answer = Answer::Refused {
            need,
            stamp,
            again: false,
        };
        Ok(Kept { answer })
    }
}

impl Books {
    /// A request that is due, from its draw to what is kept.
    pub(crate) fn begin_new<K: Keeper>(
        &mut self,
        alloc: Global,
        keeper: &mut K,
        request: Request,
        seen: Stamp,
        stamp: Stamp,
    ) -> Result<Kept, KeepFault>
        requires { CanBegin self.old request seen stamp }
        ensures { KeepsBegin K.terms keeper.old keeper.new
            self.old request seen result self.new }
    {
        let taken = self.take(alloc, request, seen, stamp)?;
        match taken.run(alloc, self)? {
            Stepped::Ran(step) => step.keep(alloc, self, keeper),
            Stepped::Refused(step) => step.keep(alloc, self, keeper),
        }
    }
}

impl Kept {
    /// What the client is told.
    pub fn answer(self) -> Answer
        ensures { result ≡ self.answer }
    {
        let Kept { answer } = self;
        answer
    }
}
