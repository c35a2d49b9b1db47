//! Laws of servers of which nobody is told more than is settled, each the contract of a function
//! that does nothing.
ghost use Rattle.std.specs.Prelude.{◌≡◌, false};
ghost use Rattle.lynx_server.specs.Keeping.{kept_of};
ghost use Rattle.lynx_resting.specs.Resting.{settled_front};

use crate::resting::Resting;
use lynx_keep::BatchKeeper;

/// Between two calls of a server that runs a stop leaves just the settled front.
pub fn stop_leaves_the_front<K: BatchKeeper>(resting: &Resting<K>)
    ensures { resting.now.here.is_stopped ≡ false → K.terms.sound resting.now.here.keeper.inner
        → K.terms.leaves resting.now.here.keeper.inner
        (kept_of resting.now.here.set (settled_front resting.now))
        (kept_of resting.now.here.set (settled_front resting.now)) }
{
    // By its type the keeper keeps the front.
    let _settled = resting.settled;
}
