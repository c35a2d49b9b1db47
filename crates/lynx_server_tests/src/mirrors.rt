//! The mirror of a server's cells: made where nothing waits, brought up to each settling, and let
//! go where somebody else still has it.
use lynx_fixtures::cells::{Cell, are_cells};
use lynx_fixtures::made::request;
use lynx_fixtures::parts::RequestParts;
use lynx_fixtures::payments::{PAY, SEED};
use lynx_fixtures::texts::{PAYMENT, set_of};
use lynx_keep::MemoryKeeper;
use lynx_names::{Memory, ServerId, Stamp};
use lynx_resting::Resting;
use lynx_server::Server;
use std::alloc::Global;
use std::test::Fail;

/// Server 0 of the payment set, which did nothing.
fn resting(alloc: Global) -> Result<Resting<MemoryKeeper>, Memory> {
    let set = set_of(alloc, PAYMENT)?;
    let server = Server::new(alloc, &set, ServerId::first(), MemoryKeeper::new(alloc))?;
    Ok(Resting::new(alloc, server))
}

/// One begin, which waits.
fn begin(
    alloc: Global,
    resting: &mut Resting<MemoryKeeper>,
    asked: RequestParts,
) -> Result<(), Memory> {
    let _ = resting.begin(alloc, request(alloc, asked)?, Stamp::zero());
    Ok(())
}

/// Whether the mirror has these cells, with that stamp.
fn has(
    alloc: Global,
    resting: &Resting<MemoryKeeper>,
    stamp: u64,
    want: &[Cell],
) -> Result<bool, Memory> {
    let Some(mirror) = resting.mirror() else {
        return Ok(false);
    };
    let cells = mirror.cells().list(alloc)?;
    Ok(mirror.stamp().time() == stamp && are_cells(cells.as_slice(), want))
}

/// Settles, and has the mirror follow.
fn settle(alloc: Global, resting: &mut Resting<MemoryKeeper>) -> bool {
    let is_settled = resting.settle(alloc);
    resting.follow_mirror(alloc);
    is_settled
}

#[test]
fn a_mirror_has_what_is_settled(rt: HostRuntime) -> Result<(), Fail> {
    let alloc = rt.alloc();
    let mut resting = resting(alloc)?;
    begin(alloc, &mut resting, SEED)?;
    resting.make_mirror(alloc)?;
    assert!(rt; !resting.has_mirror(), "something waits");
    assert!(rt; settle(alloc, &mut resting));
    resting.make_mirror(alloc)?;
    assert!(rt; has(alloc, &resting, 1, &[(0, 0, 100)])?);
    begin(alloc, &mut resting, PAY)?;
    resting.follow_mirror(alloc);
    assert!(rt;
        has(alloc, &resting, 1, &[(0, 0, 100)])?,
        "what waits isn't seen"
    );
    assert!(rt; settle(alloc, &mut resting));
    assert!(rt; has(alloc, &resting, 2, &[(0, 0, 70)])?);
    let other = resting.mirror();
    begin(alloc, &mut resting, RequestParts { number: 9, ..PAY })?;
    assert!(rt; settle(alloc, &mut resting));
    assert!(rt; !resting.has_mirror(), "a reader has it");
    drop(other);
    resting.make_mirror(alloc)?;
    assert!(rt; has(alloc, &resting, 3, &[(0, 0, 40)])?);
    resting.drop_mirror();
    assert!(rt; !resting.has_mirror());
    Ok(())
}
