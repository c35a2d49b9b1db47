use lynx_names::{ClientId, Memory, ProgramId, TryCopy, Values};
use std::alloc::Global;

/// What a client asks for: a chain of that program with these arguments. The client numbers its
/// requests; one that comes again with the same number is answered from the record.
#[derive(Debug, PartialEq, Eq, Drop)]
pub struct Request {
    pub client: ClientId,
    pub number: u64,
    pub program: ProgramId,
    pub args: Values,
}

impl TryCopy for Request {
    fn copy(&self, alloc: Global) -> Result<Request, Memory> {
        Ok(Request {
            client: self.client,
            number: self.number,
            program: self.program,
            args: self.args.copy(alloc)?,
        })
    }
}
