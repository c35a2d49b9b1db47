use lynx_names::{ChainId, Items, Memory, Numbers, ProgramId, Stamp, TryCopy, Values};
use std::alloc::Global;

/// The results of a chain's hops so far, hop by hop.
pub type ResultLists = Items<Values>;

/// What a hop's server is sent: all that it needs to run that hop of the chain.
#[derive(Debug, PartialEq, Eq, Drop)]
pub struct Message {
    pub chain: ChainId,
    pub program: ProgramId,
    pub hop: u8,
    /// The stamp of the entry that sends it.
    pub stamp: Stamp,
    pub args: Values,
    pub numbers: Numbers,
    pub results: ResultLists,
}

impl TryCopy for Message {
    fn copy(&self, alloc: Global) -> Result<Message, Memory> {
        Ok(Message {
            chain: self.chain,
            program: self.program,
            hop: self.hop,
            stamp: self.stamp,
            args: self.args.copy(alloc)?,
            numbers: self.numbers.copy(alloc)?,
            results: self.results.copy(alloc)?,
        })
    }
}
