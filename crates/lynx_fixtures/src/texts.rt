//! Set texts that the tests of several files use.
ghost use Rattle.std.specs.Prelude.{◌≡◌, IfOk};
ghost use Rattle.lynx_set.specs.Text.{text_of};

use crate::made::boxed;
use lynx_names::Memory;
use lynx_set::ChainSet;
use lynx_text::parse;
use std::alloc::Global;

/// No table and no program.
pub const EMPTY_SET: &str = "lynx 1\nservers 1\n";

/// A payment between two servers.
pub const PAYMENT: &str =
    "lynx 1\nservers 2\ntable acct\nshard 0 999 0\nshard 1000 18446744073709551615 1\nprogram seed n\nhop 0\nadd acct 0 n\nend\nprogram pay n\nhop 0\nget x acct 0\nneed x >= n\nsub acct 0 n\nhop 1\nadd acct 1000 n\nend\n";

/// The payment, and a program that names its cell by a parameter.
pub const PAYMENT_AND_PUT: &str =
    "lynx 1\nservers 2\ntable acct\nshard 0 999 0\nshard 1000 18446744073709551615 1\nprogram seed n\nhop 0\nadd acct 0 n\nend\nprogram pay n\nhop 0\nget x acct 0\nneed x >= n\nsub acct 0 n\nhop 1\nadd acct 1000 n\nend\nprogram put k\nhop 0\nadd acct k 1\nend\n";

/// A payment, and a program that reads where it arrives.
pub const PAY_AND_NOTE: &str =
    "lynx 1\nservers 2\ntable acct\nshard 0 999 0\nshard 1000 18446744073709551615 1\nprogram pay n\nhop 0\nget x acct 0\nneed x >= n\nsub acct 0 n\nhop 1\nadd acct 1000 n\nend\nprogram note\nhop 1\nget z acct 1000\nend\n";

/// Payments in both directions.
pub const CROSSING: &str =
    "lynx 1\nservers 2\ntable acct\nshard 0 999 0\nshard 1000 18446744073709551615 1\nprogram pay n\nhop 0\nget x acct 0\nneed x >= n\nsub acct 0 n\nhop 1\nadd acct 1000 n\nend\nprogram back n\nhop 1\nget y acct 1000\nneed y >= n\nsub acct 1000 n\nhop 0\nadd acct 0 n\nend\nprogram seed0 n\nhop 0\nadd acct 0 n\nend\nprogram seed1 n\nhop 1\nadd acct 1000 n\nend\n";

/// A sum and a difference of two parameters.
pub const CALC: &str =
    "lynx 1\nservers 1\ntable t\nshard 0 18446744073709551615 0\nprogram calc a b\nhop 0\nlet s a + b\nlet d a - b\nset t 0 d\nend\n";

/// A program that names its cell by a parameter.
pub const PUT: &str =
    "lynx 1\nservers 2\ntable acct\nshard 0 999 0\nshard 1000 18446744073709551615 1\nprogram put k\nhop 0\nadd acct k 1\nend\n";

/// A program that goes from the first server to the second, and back.
pub const TRIP: &str =
    "lynx 1\nservers 2\ntable t\nshard 0 9 0\nshard 10 18446744073709551615 1\nprogram trip\nhop 0\nadd t 0 1\nhop 1\nadd t 10 1\nhop 0\nadd t 0 1\nend\n";

/// A program that reads at its second hop, and one that sets that cell.
pub const LATE_AND_MARK: &str =
    "lynx 1\nservers 2\ntable t\nshard 0 9 0\nshard 10 18446744073709551615 1\nprogram late\nhop 0\nadd t 0 1\nhop 1\nget y t 10\nend\nprogram mark v\nhop 1\nset t 10 v\nend\n";

/// The same, where both begin at the first server.
pub const ONE_ORIGIN_ONLY: &str =
    "lynx 1\nservers 2\ntable t\nshard 0 9 0\nshard 10 18446744073709551615 1\nprogram late\nhop 0\nadd t 0 1\nhop 1\nget y t 10\nend\nprogram mark v\nhop 0\nset t 0 v\nhop 1\nset t 10 v\nend\n";

/// Two programs that add at one server and read at two others, and two that write there.
pub const ONE_ORIGIN_JOINS: &str =
    "lynx 1\nservers 3\ntable t\nshard 0 9 0\nshard 10 19 1\nshard 20 18446744073709551615 2\nprogram p\nhop 0\nadd t 0 1\nhop 1\nget y t 10\nend\nprogram q\nhop 0\nadd t 0 1\nhop 2\nget z t 20\nend\nprogram d v\nhop 1\nset t 10 v\nend\nprogram e v\nhop 2\nset t 20 v\nend\n";

/// The same, where the first two set their cell.
pub const ONE_ORIGIN_SETS: &str =
    "lynx 1\nservers 3\ntable t\nshard 0 9 0\nshard 10 19 1\nshard 20 18446744073709551615 2\nprogram p\nhop 0\nset t 0 1\nhop 1\nget y t 10\nend\nprogram q\nhop 0\nset t 0 1\nhop 2\nget z t 20\nend\nprogram d v\nhop 1\nset t 10 v\nend\nprogram e v\nhop 2\nset t 20 v\nend\n";

/// The set of a text that is known to have no fault.
pub fn read(alloc: Global, text: &str) -> Result<ChainSet, Memory>
    ensures { IfOk result (λ set. text.now ≡ text_of set) }
{
    match parse(alloc, text.as_bytes()) {
        Ok(set) => Ok(set),
        Err(_) => Err(Memory),
    }
}

/// The same in a box.
pub fn set_of(alloc: Global, text: &str) -> Result<Box<ChainSet>, Memory> {
    boxed(alloc, read(alloc, text))
}
