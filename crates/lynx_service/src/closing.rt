//! The end of a service.
ghost use Rattle.std.specs.Prelude.{◌≡◌, ◌++◌, IfErr, IfOk, OnOk, codes, string_bytes};
ghost use Rattle.lynx_store_files.specs.Closed.{AreClosed};
ghost use Rattle.lynx_service.specs.Failures.{IsPlain};
ghost use Rattle.lynx_service.specs.Services.{IsEnded, IsExplainedBy, closing_lines, last_lines};

use crate::fault::ServeFault;
use lynx_cluster::{CloseFault, Closed};
use lynx_keep::BatchKeeper;
use lynx_lines::{chains_line, write_bytes};
use lynx_order::{Explained, explain};
use lynx_store_files::{Stores, close_all};
use lynx_world::World;
use std::alloc::{AllocError, Global};
use std::io::Write;

/// Lets go of the keepers of all servers, also behind one that fails. The first fault is told.
fn close_keepers<K: BatchKeeper + Drop, S: Stores<K>>(
    stores: &S,
    keepers: Vec<K>,
) -> Result<(), ServeFault>
    ensures closed { OnOk result (AreClosed S.store_terms.closed keepers.items) }
    ensures plain { IfErr result IsPlain }
{
    match close_all(stores, keepers) {
        Ok(()) => Ok(()),
        Err((server, fault)) => Err(ServeFault::of_store(server, fault)),
    }
}

/// What explains the world.
fn explained_by(alloc: Global, world: &World) -> Result<Explained, ServeFault>
    ensures explained { IfOk result (IsExplainedBy world.now) }
    ensures plain { IfErr result IsPlain }
{
    Ok(explain(alloc, world)?)
}

/// The line of the order or of the cycle, as it stands behind `closed`.
pub fn order_line(alloc: Global, explained: &Explained) -> Result<String, AllocError>
    ensures { IfOk result (λ line. codes "closed\n" ++ string_bytes line
        ≡ last_lines explained.now) }
{
    match explained {
        Explained::Order(chains) => chains_line(alloc, "order", chains.as_slice()),
        Explained::Cycle(chains) => chains_line(alloc, "cycle", chains.as_slice()),
    }
}

/// The last lines: `closed`, and that of the order or of the cycle.
fn last_lines(alloc: Global, explained: &Explained) -> Result<Vec<u8>, ServeFault>
    ensures lines { IfOk result (λ lines. lines.items ≡ last_lines explained.now) }
    ensures plain { IfErr result IsPlain }
{
    let mut lines = Vec::from_slice(alloc, b"closed\n")?;
    let line = order_line(alloc, explained)?;
    lines.extend_from_slice(line.as_bytes())?;
    Ok(lines)
}

/// What explains the world, and the last lines of a service that tell it. Nothing is written.
pub fn last_words(alloc: Global, world: &World) -> Result<(Explained, Vec<u8>), ServeFault>
    ensures words { IfOk result (λ words. IsExplainedBy world.now words.0
        × (words.1.items ≡ last_lines words.0)) }
    ensures plain { IfErr result IsPlain }
{
    let explained = explained_by(alloc, world)?;
    let lines = last_lines(alloc, &explained)?;
    Ok((explained, lines))
}

/// What a service writes last, of those last lines: `closed` alone where its order goes to a file
/// of its own.
fn lines_here<'a>(explained: &Explained, lines: &'a [u8], is_apart: bool) -> &'a [u8]
    requires { lines.now ≡ last_lines explained.now }
    ensures { result.now ≡ closing_lines is_apart explained.now }
{
    if is_apart { b"closed\n" } else { lines }
}

/// Lets go of the keepers of a service that can't say that it listens.
pub(crate) fn end_unheard<K: BatchKeeper + Drop, S: Stores<K>>(
    stores: &S,
    closed: Result<Closed<K>, CloseFault>,
) {
    if let Ok(Closed { keepers, .. }) = closed {
        let _ = close_all(stores, keepers);
    }
}

/// Lets go of the keepers of a service, in any case, and then writes how it ended, the order apart
/// where that is asked for: nobody who reads slowly keeps a store locked.
pub(crate) fn end<K: BatchKeeper + Drop, S: Stores<K>, W: Write>(
    alloc: Global,
    stores: &S,
    closed: Closed<K>,
    is_apart: bool,
    writer: &mut W,
) -> Result<Explained, ServeFault>
    ensures ended { IfOk result
        (IsEnded closed.world is_apart (W.contents writer.old) (W.contents writer.new)) }
    ensures let_go { OnOk result (AreClosed S.store_terms.closed closed.keepers.items) }
    ensures plain { IfErr result IsPlain }
{
    let Closed {
        made: _,
        world,
        keepers,
    } = closed;
    let words = last_words(alloc, &world);
    let closed = close_keepers(stores, keepers);
    let (explained, lines) = words?;
    write_bytes(writer, lines_here(&explained, lines.as_slice(), is_apart))?;
    closed?;
    Ok(explained)
}
