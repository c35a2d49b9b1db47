//! Who knows what a status tells.
use crate::cells::CellsFound;
use crate::chain::ChainFigures;
use crate::copies::{CopyCommand, CopyDone};
use crate::figures::Figures;
use crate::recent::RecentEntry;
use crate::records::{ChainRecord, RecordsFound};
use crate::wanted::CellRange;
use lynx_lex::name::Name;
use lynx_names::{ChainId, ClientId, Memory};

/// A service that is looked at: what it says of itself, at the moment at which it is asked.
pub trait Watched {
    ghost use Rattle.std.specs.Prelude.{◌≡◌, ℕ, List, IfOk};
    ghost use Rattle.lynx_status.specs.Watching.{Finds, Obeys, Reads, Records, Tells, Traces};

    // Which figures it may tell, what it may find of a chain, of cells and of requests, and what
    // may come of a command, each from one state of it to the next; and the text of its set.
    ghost tells: { Tells Self };

    ghost finds: { Finds Self };

    ghost reads: { Reads Self };

    ghost records: { Records Self };

    ghost traces: { Traces Self };

    ghost obeys: { Obeys Self };

    ghost set_of: { Self → List ℕ };

    /// The figures of the service and of each of its servers.
    fn figures(&mut self) -> Result<Figures, Memory>
        ensures { IfOk result (λ figures. tells self.old figures self.new) };

    /// How far a chain has come, None where there is no such chain.
    fn chain(&mut self, chain: ChainId) -> Result<Option<ChainFigures>, Memory>
        ensures { IfOk result (λ found. finds self.old chain found self.new) };

    /// The cells of a table that aren't 0, from one key to another, so many at most: those of the
    /// one server that has the first key, all of one moment.
    fn cells(&mut self, table: Name, range: CellRange) -> Result<CellsFound, Memory>
        ensures { IfOk result (λ found. reads self.old table range found self.new) };

    /// The entries that record a client's request, by server.
    fn records(&mut self, client: ClientId, number: u64) -> Result<RecordsFound, Memory>
        ensures { IfOk result (λ found. records self.old client number found self.new) };

    /// What a chain did, and for whom. None where there is no such chain.
    fn record_of(&mut self, chain: ChainId) -> Result<Option<ChainRecord>, Memory>
        ensures { IfOk result (λ found. traces self.old chain found self.new) };

    /// The last entries of all servers, stamps rising: a hundred say.
    fn recent(&mut self) -> Result<Vec<RecentEntry>, Memory>;

    /// Has the stores of the folder that follows closed, or opened again.
    fn obey(&mut self, command: CopyCommand) -> CopyDone
        ensures { obeys self.old command result self.new };

    /// The text of the set.
    fn set_text(&self) -> &[u8]
        ensures { result.now ≡ set_of self.now };

    /// Whether the service is to end, so that connections are closed.
    fn is_ending(&self) -> bool;
}
