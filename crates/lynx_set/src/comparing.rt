//! Whether two sets are the same.
ghost use Rattle.std.specs.Prelude.{◌≡◌, ◌↔◌, IsTrue};

use crate::program::Program;
use crate::set::ChainSet;
use crate::version::Version;
use indexmap::{IndexMap, IndexSet};
use lynx_lex::Name;
use lynx_shards::ShardMap;

fn same_versions(left: Version, right: Version) -> bool
    ensures { IsTrue result ↔ (left ≡ right) }
{
    left == right
}

fn same_tables(left: &IndexSet<Name>, right: &IndexSet<Name>) -> bool
    ensures { IsTrue result ↔ (left.now.keys ≡ right.now.keys) }
{
    left.as_slice() == right.as_slice()
}

fn same_shards(left: &ShardMap, right: &ShardMap) -> bool
    ensures { IsTrue result ↔ (left.now ≡ right.now) }
{
    left.tables() == right.tables()
}

fn same_programs(left: &IndexMap<Name, Program>, right: &IndexMap<Name, Program>) -> bool
    ensures { IsTrue result ↔ (left.now.entries ≡ right.now.entries) }
{
    left.as_slice() == right.as_slice()
}

impl ChainSet {
    /// Whether both sets have the same version, servers, tables, shards and programs, in one order
    /// and under the same names. The work is a walk over both. Takes no memory.
    pub fn is_same(&self, other: &ChainSet) -> bool
        ensures { IsTrue result ↔ (self.now ≡ other.now) }
    {
        same_versions(self.version(), other.version())
            && self.servers() == other.servers()
            && same_tables(self.tables(), other.tables())
            && same_shards(self.shards(), other.shards())
            && same_programs(self.programs(), other.programs())
    }
}
