//! Answers look-ups of cells, requests and chains.
ghost use Rattle.std.specs.Prelude.{◌≡◌, IfOk};
ghost use Rattle.lynx_service.specs.Lookups.{FindsCells};

use crate::status::Status;
use lynx_cluster::{CellsRead, Recorded};
use lynx_entry::{Entry, Request};
use lynx_keep::BatchKeeper;
use lynx_lex::name::Name;
use lynx_names::{ChainId, ClientId, Memory, ProgramId, ServerId, TableId};
use lynx_set::ChainSet;
use lynx_shards::Shard;
use lynx_status::{
    CellRange, CellsFigures, CellsFound, ChainRecord, RecordFigures, RecordOutcome, RecordsFound,
};
use std::sync::Wait;
use std::time::Clock;

/// The shard of a table that has the key.
fn shard_at(set: &ChainSet, table: TableId, key: u64) -> Option<&Shard> {
    let shards = set.shards().tables().get(table.index())?;
    shards
        .as_slice()
        .iter()
        .find(|shard| shard.low <= key && key <= shard.high)
}

/// From which key one has to go on where cells up to `last` were asked for, and these were read.
fn next_of(read: &CellsRead, range: CellRange, last: u64) -> Option<u64> {
    let is_full = read.cells.len() as u64 >= range.limit;
    let end = match read.cells.last() {
        Some(cell) if is_full => cell.0,
        _ => last,
    };
    if end < range.to {
        end.checked_add(1)
    } else {
        None
    }
}

/// What is told of cells that were read of that server.
fn figures_of(read: CellsRead, server: ServerId, range: CellRange, last: u64) -> CellsFigures
    ensures server { result.server ≡ server }
    ensures stamp { result.stamp ≡ read.stamp }
    ensures cells { result.cells ≡ read.cells }
{
    let next = next_of(&read, range, last);
    CellsFigures {
        server,
        stamp: read.stamp,
        cells: read.cells,
        next,
    }
}

/// The last key of the shard of a table that has the key.
fn end_of_shard(set: &ChainSet, table: TableId, key: u64) -> u64 {
    match shard_at(set, table, key) {
        Some(shard) => shard.high,
        None => key,
    }
}

/// The program that an entry's request asks for. None of a later hop.
fn program_of(entry: &Entry) -> Option<ProgramId> {
    match entry {
        Entry::Begun(begun) => Some(begun.request.program),
        Entry::Refused(refused) => Some(refused.request.program),
        Entry::Hop(_) => None,
    }
}

/// What is told of an entry that records a request of that program. None of a later hop.
fn record_figures(recorded: Recorded, program: Name) -> Option<RecordFigures> {
    let Recorded { server, entry } = recorded;
    let (stamp, args, outcome) = match entry {
        Entry::Begun(begun) => {
            let chain = begun.chain;
            let results = begun.results;
            let outcome = RecordOutcome::Begun { chain, results };
            (begun.stamp, begun.request.args, outcome)
        }
        Entry::Refused(refused) => {
            let need = refused.need;
            let outcome = RecordOutcome::Refused { need };
            (refused.stamp, refused.request.args, outcome)
        }
        Entry::Hop(_) => return None,
    };
    Some(RecordFigures {
        server,
        stamp,
        program,
        args,
        outcome,
    })
}

impl<R: Wait + Clock, K: BatchKeeper> Status<'_, R, K> {
    /// The cells of a table from one key to another, of the one server that has the first.
    pub(crate) fn cells_found(&self, name: Name, range: CellRange) -> Result<CellsFound, Memory>
        ensures { IfOk result (FindsCells self.now.frontend.now.set name range) }
    {
        let set = self.frontend.set();
        let Some(table) = set.find_table(&name) else {
            return Ok(CellsFound::NoTable);
        };
        let from = range.from;
        let server = set.shards().server_of(table, from);
        let last = range.to.min(end_of_shard(set, table, from)).max(from);
        let most = range.limit as usize;
        let read = self
            .frontend
            .read(self.rt, self.alloc, server, table, from, last, most)?;
        match read {
            Some(read) => Ok(CellsFound::Found(figures_of(read, server, range, last))),
            None => Ok(CellsFound::Stopped),
        }
    }

    /// What is told of an entry that records a request. None where its program has no name.
    fn record_figures(&self, recorded: Recorded) -> Option<RecordFigures> {
        let program = self.name_of(program_of(&recorded.entry)?)?;
        record_figures(recorded, program)
    }

    /// Whether some server has stopped.
    fn has_stopped(&self) -> bool {
        for number in 0..self.frontend.set().servers() {
            if let Some(glance) = self.frontend.glance(self.rt, ServerId::at(number))
                && !glance.is_running
            {
                return true;
            }
        }
        false
    }

    /// The entries that record a request. Where none is settled, and a server stopped, it may be
    /// that one is kept all the same.
    pub(crate) fn records_found(
        &self,
        client: ClientId,
        number: u64,
    ) -> Result<RecordsFound, Memory> {
        let mut records = Vec::new(self.alloc);
        for recorded in self.frontend.find(self.rt, self.alloc, client, number)? {
            if let Some(figures) = self.record_figures(recorded) {
                records.push(figures)?;
            }
        }
        if records.is_empty() && self.has_stopped() {
            return Ok(RecordsFound::Stopped);
        }
        Ok(RecordsFound::Found(records))
    }

    /// What a chain did, and for whom.
    pub(crate) fn chain_found(&self, chain: ChainId) -> Result<Option<ChainRecord>, Memory> {
        let found = self.frontend.beginning(self.rt, self.alloc, chain)?;
        let Some(Entry::Begun(begun)) = found else {
            return Ok(None);
        };
        let Request {
            client,
            number,
            program,
            args,
        } = begun.request;
        let Some(name) = self.name_of(program) else {
            return Ok(None);
        };
        let hops = self.hops_of(program, &chain)?;
        Ok(Some(ChainRecord {
            chain,
            client,
            number,
            program: name,
            args,
            hops,
        }))
    }
}
