//! Chains that begin at one server and go on at another, over whatever keepers.
use lynx_entry::{Answer, Delivered, Message, Request};
use lynx_keep::Keeper;
use lynx_names::{ClientId, Memory, ProgramId, Stamp, Values};
use lynx_rules::next_of;
use lynx_server::Server;
use std::alloc::Global;

/// A chain that is to begin: at which server, by which program, and with which arguments.
#[derive(Clone, Copy)]
pub struct Start<'a> {
    pub server: u8,
    pub program: u8,
    pub args: &'a [u64],
}

/// The request of that number.
fn request(alloc: Global, start: Start<'_>, number: u64) -> Result<Request, Memory> {
    Ok(Request {
        client: ClientId::new(1),
        number,
        program: ProgramId::new(start.program).ok_or(Memory)?,
        args: Values::from_vec(Vec::from_slice(alloc, start.args)?),
    })
}

fn has_begun(answer: Answer) -> bool {
    matches!(answer, Answer::Begun { .. })
}

/// A chain is to begin at the server, by a request of that number. Whether it began.
pub fn begin<K: Keeper>(
    alloc: Global,
    server: &mut Server<K>,
    start: Start<'_>,
    number: u64,
) -> Result<bool, Memory> {
    let request = request(alloc, start, number)?;
    Ok(has_begun(server.begin(alloc, request, Stamp::zero())))
}

/// The message, if there is one, is delivered to the server. Whether its hop ran now.
pub fn deliver<K: Keeper>(alloc: Global, server: &mut Server<K>, message: Option<Message>) -> bool {
    let Some(message) = message else {
        return false;
    };
    let delivered = server.deliver(alloc, message);
    let has_run = matches!(&delivered, Delivered::Done { .. });
    drop(delivered);
    has_run
}

/// The message that the server's last entry sends.
pub fn last_sent<K: Keeper>(alloc: Global, server: &Server<K>) -> Result<Option<Message>, Memory> {
    match server.history().last() {
        Some(entry) => next_of(alloc, server.set(), entry),
        None => Ok(None),
    }
}
