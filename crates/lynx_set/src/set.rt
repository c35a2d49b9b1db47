ghost use Rattle.std.specs.Prelude.{◌≡◌, ◌<◌, ◌≤◌, ◌++◌, ◌∷◌, [], None, OnOk, length, option_copied, IfOk};
ghost use Rattle.lynx_names.specs.declared.limits.TheConstants.{MAX_PROGRAMS, MAX_SERVERS, MAX_TABLES};
ghost use Rattle.lynx_shards.specs.Ranges.{Covers};
ghost use Rattle.lynx_set.specs.Plain.{plain_set, plain_program};
ghost use Rattle.lynx_set.specs.Lookups.{program_at, program_names};
ghost use Rattle.lynx_set.specs.Names.{place_of, place_below};

use crate::program::Program;
use crate::version::Version;
use indexmap::{IndexMap, IndexSet};
use lynx_lex::Name;
use lynx_names::limits::{MAX_PROGRAMS, MAX_TABLES};
use lynx_names::{Memory, ProgramId, TableId, TryCopy};
use lynx_shards::{ShardMap, TableShards};
use std::alloc::Global;
use std::marker::Model;

/// A set of chain programs over the tables of some servers.
#[derive(Debug, Drop)]
pub struct ChainSet {
    version: Version,
    servers: u8,
    tables: IndexSet<Name>,
    shards: ShardMap,
    programs: IndexMap<Name, Program>,
}

impl Model for ChainSet {
    ghost use Rattle.lynx_set.specs.Set.{Set};

    ghost Value = { Set };

    ghost view = { λ set. record {
      version = set.version;
      servers = set.servers;
      tables = set.tables.keys;
      shards = set.shards;
      programs = set.programs.entries;
    } };

    ghost use Rattle.std.specs.Prelude.{◌≤◌, length};
    ghost use Rattle.lynx_names.specs.declared.limits.TheConstants.{MAX_PROGRAMS, MAX_SERVERS};

    ghost invariant = { λ set. record {
      few_servers : set.servers ≤ MAX_SERVERS;
      few_programs : length set.programs.entries ≤ MAX_PROGRAMS;
    } };
}

impl ChainSet {
    /// The set of that version and so many servers without tables and programs. It takes no memory.
    pub fn new(alloc: Global, version: Version, servers: u8) -> ChainSet
        requires { servers ≤ MAX_SERVERS }
        ensures { result ≡ record {
          version = version;
          servers = servers;
          tables = [];
          shards = [];
          programs = [];
        } }
    {
        ChainSet {
            version,
            servers,
            tables: IndexSet::new(alloc),
            shards: ShardMap::new(alloc),
            programs: IndexMap::new(alloc),
        }
    }

    /// The version of its text.
    pub fn version(&self) -> Version
        ensures { result ≡ self.now.version }
    {
        self.version
    }

    /// The same set with that version.
    pub(crate) fn at_version(self, version: Version) -> ChainSet
        ensures { result ≡ record self { version = version } }
    {
        ChainSet { version, ..self }
    }

    /// How many servers there are, from 1 to 16.
    pub fn servers(&self) -> u8
        ensures value { result ≡ self.now.servers }
        ensures few { result ≤ MAX_SERVERS }
    {
        self.servers
    }

    /// The names of its tables.
    pub fn tables(&self) -> &IndexSet<Name>
        ensures { result.now.keys ≡ self.now.tables }
    {
        &self.tables
    }

    /// The shards of its tables.
    pub fn shards(&self) -> &ShardMap
        ensures { result.now ≡ self.now.shards }
    {
        &self.shards
    }

    /// Its programs under their names.
    pub fn programs(&self) -> &IndexMap<Name, Program>
        ensures value { result.now.entries ≡ self.now.programs }
        ensures few { length result.now.entries ≤ MAX_PROGRAMS }
    {
        &self.programs
    }

    /// The program of that number, None where there are no more than that.
    pub fn program(&self, program: ProgramId) -> Option<&Program>
        ensures { option_copied result ≡ program_at self.now program }
    {
        let (_, program) = self.programs.get_index(program.index())?;
        Some(program)
    }

    /// The table of that name.
    pub fn find_table(&self, name: &Name) -> Option<TableId>
        ensures { result ≡ place_below MAX_TABLES self.now.tables name.now }
    {
        let place = self.place_of_table(name)?;
        if place < usize::from(MAX_TABLES) {
            TableId::new(place as u8)
        } else {
            None
        }
    }

    /// The program of that name.
    pub fn find_program(&self, name: &Name) -> Option<ProgramId>
        ensures { result ≡ place_below MAX_PROGRAMS (program_names self.now) name.now }
    {
        let place = self.place_of_program(name)?;
        if place < usize::from(MAX_PROGRAMS) {
            ProgramId::new(place as u8)
        } else {
            None
        }
    }

    /// The place of the table of that name.
    pub fn place_of_table(&self, name: &Name) -> Option<usize>
        ensures { result ≡ place_of self.now.tables name.now }
    {
        self.tables.get_index_of(name)
    }

    /// The place of the program of that name.
    pub fn place_of_program(&self, name: &Name) -> Option<usize>
        ensures { result ≡ place_of (program_names self.now) name.now }
    {
        self.programs.get_index_of(name)
    }

    /// Adds a table of this name, which is new. An error leaves a set that is not to be used.
    pub fn add_table(&mut self, name: Name, shards: TableShards) -> Result<(), Memory>
        requires whole { Covers shards }
        requires new { place_of self.old.tables name ≡ None }
        ensures { OnOk result (self.new ≡ record self.old {
          tables = self.old.tables ++ name ∷ [];
          shards = self.old.shards ++ shards ∷ [];
        }) }
    {
        self.tables.insert(name)?;
        self.shards.add_table(shards)?;
        Ok(())
    }

    /// Adds a program of this name, which is new.
    pub fn add_program(&mut self, name: Name, program: Program) -> Result<(), Memory>
        requires new { place_of (program_names self.old) name ≡ None }
        requires few { length self.old.programs < MAX_PROGRAMS }
        ensures ok { OnOk result (self.new ≡ record self.old {
          programs = self.old.programs
              ++ (name, program) ∷ [];
        }) }
        ensures plain { OnOk result (plain_set self.new ≡ record (plain_set self.old) {
          programs = (plain_set self.old).programs ++ (name, plain_program program) ∷ [];
        }) }
    {
        self.programs.insert(name, program)?;
        Ok(())
    }
}

impl TryCopy for ChainSet {
    fn copy(&self, alloc: Global) -> Result<ChainSet, Memory> {
        Ok(ChainSet {
            version: self.version,
            servers: self.servers,
            tables: copy_names(alloc, &self.tables)?,
            shards: self.shards.copy(alloc)?,
            programs: copy_programs(alloc, &self.programs)?,
        })
    }
}

fn copy_names(alloc: Global, names: &IndexSet<Name>) -> Result<IndexSet<Name>, Memory>
    ensures { IfOk result (λ copied. copied.keys ≡ names.now.keys) }
{
    let mut copied = IndexSet::with_capacity(alloc, names.len())?;
    for name in names.as_slice() {
        copied.insert(*name)?;
    }
    Ok(copied)
}

fn copy_programs(
    alloc: Global,
    programs: &IndexMap<Name, Program>,
) -> Result<IndexMap<Name, Program>, Memory>
    ensures { IfOk result (λ copied. copied.entries ≡ programs.now.entries) }
{
    let mut copied = IndexMap::with_capacity(alloc, programs.len())?;
    for (name, program) in programs {
        copied.insert(*name, program.copy(alloc)?)?;
    }
    Ok(copied)
}
