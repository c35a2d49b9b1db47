//! How many entries chains take.
ghost use Rattle.std.specs.Prelude.{◌≡◌, IfOk};
ghost use Rattle.lynx_carry.specs.Counts.{entries_at, entries_of, hops_at};

use lynx_entry::Request;
use lynx_names::{Memory, ProgramId, ServerId};
use lynx_set::ChainSet;
use std::alloc::Global;

/// How many hops of the program are at the server.
fn hops_at(set: &ChainSet, server: ServerId, program: ProgramId) -> usize
    ensures { result ≡ hops_at set.now server program }
{
    set.hops(program)
        .iter()
        .filter(|hop| hop.server == server)
        .count()
}

/// How many entries the server takes of these chains. The fault is a count of 2^64 or more.
fn entries_at(set: &ChainSet, requests: &[Request], server: ServerId) -> Result<u64, Memory>
    ensures { IfOk result (λ entries. entries ≡ entries_at set.now requests.now server) }
{
    let mut entries = 0u64;
    for request in requests {
        let more = hops_at(set, server, request.program) as u64;
        entries = entries.checked_add(more).ok_or(Memory)?;
    }
    Ok(entries)
}

/// How many entries each server of the set takes of these chains, all of whose hops are done. It
/// takes a step for each server and hop. Memory would also come of a count of 2^64 or more, which
/// no list of requests has.
pub fn entries_of(alloc: Global, set: &ChainSet, requests: &[Request]) -> Result<Vec<u64>, Memory>
    ensures { IfOk result (λ counts. counts.items ≡ entries_of set.now requests.now) }
{
    let mut counts = Vec::new(alloc);
    for number in 0..set.servers() {
        let entries = entries_at(set, requests, ServerId::at(number))?;
        counts.push(entries)?;
    }
    Ok(counts)
}
