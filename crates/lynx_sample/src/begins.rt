//! Begins that pass their checks.
use crate::arguments::random_arguments;
use crate::choices::Choices;
use crate::courses::Course;
use crate::plan::Plan;
use lynx_cells::{Cells, Changes};
use lynx_entry::{Answer, Event, Outcome, Request};
use lynx_hops::run::{HopFault, run_hop};
use lynx_names::{ChainId, ClientId, Memory, ProgramId, ServerId, Stamp, TryCopy};
use lynx_rules::checks::request_fault;
use lynx_set::ChainSet;
use lynx_world::World;
use std::alloc::Global;

/// How many requests are drawn for a begin before it is given up.
const DRAWS: u32 = 50;

/// How many clients ask.
const CLIENTS: u64 = 4;

impl Plan {
    /// A begin of a chain whose first hop refuses nothing. False where no request for one was
    /// found, or the server was busy.
    pub(crate) fn begin(&mut self, alloc: Global, choices: &mut Choices) -> Result<bool, Memory> {
        let cells = cells_of(alloc, &self.world)?;
        for _ in 0..DRAWS {
            if let Some((server, request)) = self.draw(alloc, &cells, choices)? {
                return self.ask(alloc, server, request);
            }
        }
        Ok(false)
    }

    /// A request and the server that is to begin it, None where it would fail. Of the requests to a
    /// busy server few are given.
    fn draw(
        &self,
        alloc: Global,
        cells: &Cells,
        choices: &mut Choices,
    ) -> Result<Option<(ServerId, Request)>, Memory> {
        let set = self.world.set();
        let Some((program, server)) = random_program(set, choices) else {
            return Ok(None);
        };
        if self.is_busy(server) && !choices.once_in(16) {
            return Ok(None);
        }
        let meeting = self.meeting.as_slice();
        let request = Request {
            client: ClientId::new(choices.below(CLIENTS) + 1),
            number: self.requests.saturating_add(1),
            program,
            args: random_arguments(alloc, set, program, meeting, choices)?,
        };
        if fails(alloc, set, cells, server, &request)? {
            return Ok(None);
        }
        Ok(Some((server, request)))
    }

    /// Whether a chain that began at the server has still to return there.
    fn is_busy(&self, server: ServerId) -> bool {
        let set = self.world.set();
        self.courses
            .as_slice()
            .iter()
            .any(|course| course.keeps_busy(set, server))
    }

    /// Asks the server, and notes the chain that begins. False where none does.
    fn ask(&mut self, alloc: Global, server: ServerId, request: Request) -> Result<bool, Memory> {
        let program = request.program;
        let args = request.args.copy(alloc)?;
        self.requests = self.requests.saturating_add(1);
        let begin = Event::Begin {
            server,
            request,
            seen: Stamp::zero(),
        };
        let outcome = self.play(alloc, begin)?;
        let Some(chain) = begun_by(&outcome) else {
            return Ok(false);
        };
        self.courses.push(Course {
            chain,
            program,
            next: 1,
            is_held: false,
        })?;
        for arg in args.as_slice() {
            self.meeting.push(*arg)?;
        }
        Ok(true)
    }
}

/// The chain that began.
fn begun_by(outcome: &Outcome) -> Option<ChainId> {
    match outcome {
        Outcome::Answered(Answer::Begun { chain, .. }) => Some(*chain),
        _ => None,
    }
}

/// A program of the set and its origin, None where it has none.
fn random_program(set: &ChainSet, choices: &mut Choices) -> Option<(ProgramId, ServerId)> {
    let number = choices.place(set.programs().len());
    let program = ProgramId::new(u8::try_from(number).ok()?)?;
    let origin = set.origin(program)?;
    Some((program, origin))
}

/// Whether the request fails the checks of its server, or its first hop refuses.
fn fails(
    alloc: Global,
    set: &ChainSet,
    cells: &Cells,
    server: ServerId,
    request: &Request,
) -> Result<bool, Memory> {
    if request_fault(set, server, request).is_some() {
        return Ok(true);
    }
    let args = request.args.as_slice();
    match run_hop(alloc, set, request.program, 0, args, &[], cells) {
        Ok(ran) => {
            let _ = ran.spend();
            Ok(false)
        }
        Err(HopFault::Refused(_)) => Ok(true),
        Err(HopFault::Memory) => Err(Memory),
    }
}

/// What the servers hold in their cells, as one. Each cell is at one server.
fn cells_of(alloc: Global, world: &World) -> Result<Cells, Memory> {
    let mut changes = Changes::new(alloc);
    for (table, key, value) in world.cells(alloc)?.as_slice() {
        changes.put(*table, *key, *value)?;
    }
    let mut cells = Cells::new(alloc);
    cells.stage(&changes)?;
    cells.apply(&changes);
    Ok(cells)
}
