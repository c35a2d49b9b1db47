//! What a set says of its programs and tables, by their numbers. None of it takes memory.
use crate::program::{Hop, ParameterRange};
use crate::set::ChainSet;
use lynx_names::{ProgramId, ServerId, TableId};

impl ChainSet {
    ghost use Rattle.std.specs.Prelude.{◌≡◌, ◌<◌, ◌↔◌, IsTrue, option_copied};
    ghost use Rattle.lynx_set.specs.Lookups.{hop_at, hops_of, origin_of, program_name, ranges_of, table_name};

    /// The server is one of the set's.
    pub fn has_server(&self, server: ServerId) -> bool
        ensures { IsTrue result ↔ (server < self.now.servers) }
    {
        server.number() < self.servers()
    }

    /// The ranges of a program's parameters, none where the set hasn't the program.
    pub fn ranges(&self, program: ProgramId) -> &[ParameterRange]
        ensures { result.now ≡ ranges_of self.now program }
    {
        match self.program(program) {
            Some(program) => program.ranges.as_slice(),
            None => &[],
        }
    }

    /// The hops of a program, none where the set hasn't it.
    pub fn hops(&self, program: ProgramId) -> &[Hop]
        ensures { result.now ≡ hops_of self.now program }
    {
        match self.program(program) {
            Some(program) => program.hops.as_slice(),
            None => &[],
        }
    }

    /// The hop of that number, counted from 0, None where the set hasn't it.
    pub fn hop(&self, program: ProgramId, hop: usize) -> Option<&Hop>
        ensures { option_copied result ≡ hop_at self.now program hop }
    {
        self.program(program)?.hops.as_slice().get(hop)
    }

    /// The server of a program's first hop, None where the set hasn't one.
    pub fn origin(&self, program: ProgramId) -> Option<ServerId>
        ensures { result ≡ origin_of self.now program }
    {
        let first = self.program(program)?.hops.as_slice().first()?;
        Some(first.server)
    }

    /// The name of a program, no bytes where the set hasn't it.
    pub fn program_name(&self, program: ProgramId) -> &[u8]
        ensures { result.now ≡ program_name self.now program }
    {
        match self.programs().get_index(program.index()) {
            Some((name, _)) => name.as_bytes(),
            None => &[],
        }
    }

    /// The name of a table, no bytes where the set hasn't it.
    pub fn table_name(&self, table: TableId) -> &[u8]
        ensures { result.now ≡ table_name self.now table }
    {
        match self.tables().get_index(table.index()) {
            Some(name) => name.as_bytes(),
            None => &[],
        }
    }
}
