//! What is told of what goes with entries that are cut off.
use lynx_names::ChainId;
use lynx_restore::Undone;
use std::alloc::{AllocError, Global};
use std::fmt::Write as _;

/// The chains that go with all that they did, in order: by server, and there as they began.
fn whole_chains(alloc: Global, undone: &[Undone]) -> Result<Vec<ChainId>, AllocError> {
    let mut chains = Vec::new(alloc);
    for item in undone {
        if let Undone::Began { chain, .. } = item {
            chains.push(*chain)?;
        }
    }
    Ok(chains)
}

/// The line of one of them: none of a hop of a chain that goes with all that it did.
fn put_undone(lines: &mut String, item: &Undone, whole: &[ChainId]) -> Result<(), AllocError> {
    match item {
        Undone::Began {
            server,
            client,
            number,
            chain,
        } => {
            let client = client.number();
            writeln!(
                lines,
                "  void: what client {client} was answered under its number {number}, at server {server}: chain {chain} goes with all that it did"
            )?;
        }
        Undone::Refused {
            server,
            client,
            number,
        } => {
            let client = client.number();
            writeln!(
                lines,
                "  void: what client {client} was answered under its number {number}, at server {server}"
            )?;
        }
        Undone::Ran { server, chain, hop } => {
            if whole.binary_search(chain).is_err() {
                writeln!(
                    lines,
                    "  undone: hop {hop} of chain {chain}, at server {server}"
                )?;
            }
        }
    }
    Ok(())
}

/// A line for each request whose answer is void, and for each hop that is undone of a chain whose
/// begin stays, or isn't among the copies.
pub(crate) fn undone_lines(alloc: Global, undone: &[Undone]) -> Result<String, AllocError> {
    let whole = whole_chains(alloc, undone)?;
    let mut lines = String::new(alloc);
    for item in undone {
        put_undone(&mut lines, item, whole.as_slice())?;
    }
    Ok(lines)
}
