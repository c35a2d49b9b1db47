//! What is known of a running service by whoever watches it.
ghost use Rattle.std.specs.Prelude.{ℕ, List};

use crate::connections::Connections;
use crate::copy_room::CopyRoom;
use crate::log::Log;
use crate::metrics::Metrics;
use crate::store_files::StoreFiles;
use lynx_cluster::Frontend;
use lynx_codec::Looked;
use lynx_entry::Entry;
use lynx_keep::BatchKeeper;
use lynx_lex::name::Name;
use lynx_names::{ChainId, ClientId, Memory, ProgramId, ServerId};
use lynx_status::{
    CellRange, CellsFound, ChainFigures, ChainRecord, CopyCommand, CopyDone, CopyFigures, Figures,
    HopFigures, RanHop, RecentEntry, RecentKind, RecordsFound, ServerFigures, Watched,
};
use std::alloc::Global;
use std::sync::Wait;
use std::time::{Clock, Instant};

/// How many entries are shown of all servers together.
const MOST_RECENT: usize = 100;

/// A service that is watched: its cluster, its counts, and who is connected.
#[derive(Drop)]
pub(crate) struct Status<'a, R: Wait + Clock, K: BatchKeeper> {
    pub(crate) rt: &'a R,
    pub(crate) alloc: Global,
    pub(crate) frontend: &'a Frontend<K, Metrics<R>>,
    pub(crate) connections: &'a Connections,
    pub(crate) files: &'a StoreFiles,
    pub(crate) log: &'a Log,
    /// Of the folder that follows, if one does.
    pub(crate) copies: Option<&'a CopyRoom>,
    /// The text of its set.
    pub(crate) set: &'a [u8],
    /// When it began to listen.
    pub(crate) since: Option<Instant>,
}

impl<'a, R: Wait + Clock, K: BatchKeeper> Status<'a, R, K> {
    /// Of a service that listens from now on.
    pub(crate) fn new(
        rt: &'a R,
        alloc: Global,
        frontend: &'a Frontend<K, Metrics<R>>,
        connections: &'a Connections,
        files: &'a StoreFiles,
        log: &'a Log,
        copies: Option<&'a CopyRoom>,
        set: &'a [u8],
    ) -> Status<'a, R, K> {
        Status {
            rt,
            alloc,
            frontend,
            connections,
            files,
            log,
            copies,
            set,
            since: Instant::now(rt).ok(),
        }
    }

    /// The same, for one more who watches.
    pub(crate) fn share(&self) -> Status<'a, R, K> {
        Status {
            rt: self.rt,
            alloc: self.alloc,
            frontend: self.frontend,
            connections: self.connections,
            files: self.files,
            log: self.log,
            copies: self.copies,
            set: self.set,
            since: self.since,
        }
    }

    /// Seconds since the service began to listen, 0 where no clock can tell.
    fn uptime_seconds(&self) -> u64 {
        match self.since {
            Some(since) => match since.elapsed(self.rt) {
                Ok(elapsed) => elapsed.as_secs(),
                Err(_) => 0,
            },
            None => 0,
        }
    }

    /// The name of a program of the set.
    pub(crate) fn name_of(&self, program: ProgramId) -> Option<Name> {
        let (name, _) = self.frontend.set().programs().get_index(program.index())?;
        Some(*name)
    }

    /// The figures of one server. None where the cluster has no such server.
    fn server_figures(&self, server: ServerId) -> Option<ServerFigures> {
        let metrics = self.frontend.gate();
        let glance = self.frontend.glance(self.rt, server)?;
        let counts = metrics.counts(server)?;
        Some(ServerFigures {
            server,
            is_running: glance.is_running && !self.files.are_gone(),
            entries: glance.entries,
            clock: glance.clock,
            held: glance.held,
            owed: metrics.owed(self.frontend.set(), server),
            begins: counts.begins,
            deliveries: counts.deliveries,
            commits: counts.commits,
        })
    }

    /// How far the stores are that follow these servers; none where no folder follows.
    fn copy_figures(&self, servers: &[ServerFigures]) -> Result<Vec<CopyFigures>, Memory> {
        let mut copies = Vec::new(self.alloc);
        let Some(room) = self.copies else {
            return Ok(copies);
        };
        for server in servers {
            if let Some(figures) = room.figures(server.server, server.entries) {
                copies.push(figures)?;
            }
        }
        Ok(copies)
    }

    /// What there is of that hop of a chain. None where its program has no such hop.
    fn hop_figures(
        &self,
        program: ProgramId,
        chain: ChainId,
        hop: u8,
    ) -> Result<Option<HopFigures>, Memory> {
        let Some(asked) = self.frontend.set().hop(program, usize::from(hop)) else {
            return Ok(None);
        };
        let server = asked.server;
        let looked = self
            .frontend
            .recall(self.rt, self.alloc, server, chain, hop)?;
        let ran = match looked {
            Looked::Found { stamp, results } => Some(RanHop { stamp, results }),
            Looked::Absent => None,
        };
        Ok(Some(HopFigures { hop, server, ran }))
    }

    /// The hops of a chain of that program.
    pub(crate) fn hops_of(
        &self,
        program: ProgramId,
        chain: &ChainId,
    ) -> Result<Vec<HopFigures>, Memory> {
        let mut hops = Vec::new(self.alloc);
        for hop in 0..=u8::MAX {
            let Some(figures) = self.hop_figures(program, *chain, hop)? else {
                break;
            };
            hops.push(figures)?;
        }
        Ok(hops)
    }

    /// What is shown of an entry. None where its program has no name.
    fn recent_entry(&self, server: ServerId, entry: &Entry) -> Option<RecentEntry> {
        let (program, kind) = match entry {
            Entry::Begun(begun) => (begun.request.program, RecentKind::Begun(begun.chain)),
            Entry::Refused(refused) => (refused.request.program, RecentKind::Refused),
            Entry::Hop(ran) => {
                let kind = RecentKind::Hop {
                    chain: ran.message.chain,
                    hop: ran.message.hop,
                };
                (ran.message.program, kind)
            }
        };
        Some(RecentEntry {
            server,
            stamp: entry.stamp(),
            program: self.name_of(program)?,
            kind,
        })
    }

    /// Adds what is shown of the last entries of a server.
    fn put_recent(&self, server: ServerId, recent: &mut Vec<RecentEntry>) -> Result<(), Memory> {
        let entries = self
            .frontend
            .last_entries(self.rt, self.alloc, server, MOST_RECENT)?;
        for entry in entries.as_slice() {
            if let Some(shown) = self.recent_entry(server, entry) {
                recent.push(shown)?;
            }
        }
        Ok(())
    }
}

impl<R: Wait + Clock, K: BatchKeeper> Watched for Status<'_, R, K> {
    ghost use Rattle.lynx_service.specs.Lookups.{FindsCells};

    // What is counted beside the locks, and what stands behind them, no clause can say.
    ghost tells = { λ old figures new. Unit {0} };

    ghost finds = { λ old chain found new. Unit {0} };

    ghost reads = { λ old table range found new. FindsCells old.frontend.now.set table range
        found };

    ghost records = { λ old client number found new. Unit {0} };

    ghost traces = { λ old chain found new. Unit {0} };

    ghost obeys = { λ old command done new. Unit {0} };

    ghost set_of = { λ status. status.set.now };

    fn figures(&mut self) -> Result<Figures, Memory> {
        let mut servers = Vec::new(self.alloc);
        for number in 0..self.frontend.set().servers() {
            if let Some(figures) = self.server_figures(ServerId::at(number)) {
                servers.push(figures)?;
            }
        }
        let copies = self.copy_figures(servers.as_slice())?;
        Ok(Figures {
            servers,
            copies,
            connections: self.connections.clients(self.rt),
            sessions: self.connections.sessions(),
            told_bytes: self.connections.told_bytes(),
            uptime_seconds: self.uptime_seconds(),
            log_dropped: self.log.dropped(),
        })
    }

    fn chain(&mut self, chain: ChainId) -> Result<Option<ChainFigures>, Memory> {
        let Some(program) = self.frontend.program_of(self.rt, &chain) else {
            return Ok(None);
        };
        let Some(name) = self.name_of(program) else {
            return Ok(None);
        };
        Ok(Some(ChainFigures {
            chain,
            program: name,
            hops: self.hops_of(program, &chain)?,
        }))
    }

    fn cells(&mut self, table: Name, range: CellRange) -> Result<CellsFound, Memory> {
        self.cells_found(table, range)
    }

    fn records(&mut self, client: ClientId, number: u64) -> Result<RecordsFound, Memory> {
        self.records_found(client, number)
    }

    fn record_of(&mut self, chain: ChainId) -> Result<Option<ChainRecord>, Memory> {
        self.chain_found(chain)
    }

    fn recent(&mut self) -> Result<Vec<RecentEntry>, Memory> {
        let mut recent = Vec::new(self.alloc);
        for number in 0..self.frontend.set().servers() {
            self.put_recent(ServerId::at(number), &mut recent)?;
        }
        recent.sort_by_key(|entry| entry.stamp.time())?;
        let older = recent.len().saturating_sub(MOST_RECENT);
        recent.drain(..older);
        Ok(recent)
    }

    fn obey(&mut self, command: CopyCommand) -> CopyDone {
        match self.copies {
            Some(room) => room.obey(self.rt, command),
            None => CopyDone::NoCopy,
        }
    }

    fn set_text(&self) -> &[u8] {
        self.set
    }

    fn is_ending(&self) -> bool {
        self.connections.end_request().is_asked()
    }
}
