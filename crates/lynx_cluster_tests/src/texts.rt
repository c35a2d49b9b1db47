//! Set texts.

/// Two programs that set a cell at a server of their own, and one that reads the first.
pub const PUTS: &str =
    "lynx 1\nservers 2\ntable t\nshard 0 9 0\nshard 10 18446744073709551615 1\nprogram put0 v\nhop 0\nset t 0 v\nend\nprogram get0\nhop 0\nget y t 0\nend\nprogram put1 v\nhop 1\nset t 10 v\nend\n";

/// A program that goes from the first server to the second, and one that comes from there.
pub const GO_AND_COME: &str =
    "lynx 1\nservers 2\ntable t\nshard 0 9 0\nshard 10 18446744073709551615 1\nprogram go\nhop 0\nadd t 0 1\nhop 1\nadd t 10 1\nend\nprogram come\nhop 1\nadd t 10 1\nhop 0\nadd t 0 1\nend\n";

/// Two programs that go from the first server, each to another one.
pub const FAN: &str =
    "lynx 1\nservers 3\ntable t\nshard 0 9 0\nshard 10 19 1\nshard 20 18446744073709551615 2\nprogram left\nhop 0\nadd t 0 1\nhop 1\nadd t 10 1\nend\nprogram right\nhop 0\nadd t 0 1\nhop 2\nadd t 20 1\nend\n";

/// Four servers, each with a purse that is filled there. From it is paid to two servers further, by
/// a way of one hop and by one of two that leaves a fee between; a third program reads what came
/// there. The purse of server S is cell 1000 S, what came is in the cell behind it, and fees are in
/// the one behind that. The last program reads at server 3 what came there, so that chains of two
/// origins conflict.
pub const PURSES: &str =
    "lynx 1\nservers 4\ntable acct\nshard 0 999 0\nshard 1000 1999 1\nshard 2000 2999 2\nshard 3000 18446744073709551615 3\nprogram seed0 n\nhop 0\nadd acct 0 n\nend\nprogram near0 n\nhop 0\nget x acct 0\nneed x >= n\nsub acct 0 n\nhop 2\nadd acct 2001 n\nend\nprogram far0 n f\nhop 0\nget x acct 0\nlet s n + f\nneed x >= s\nsub acct 0 s\nhop 1\nadd acct 1002 f\nhop 2\nadd acct 2001 n\nend\nprogram tail0\nhop 0\nget x acct 0\nhop 2\nget y acct 2001\nend\nprogram seed1 n\nhop 1\nadd acct 1000 n\nend\nprogram near1 n\nhop 1\nget x acct 1000\nneed x >= n\nsub acct 1000 n\nhop 3\nadd acct 3001 n\nend\nprogram far1 n f\nhop 1\nget x acct 1000\nlet s n + f\nneed x >= s\nsub acct 1000 s\nhop 2\nadd acct 2002 f\nhop 3\nadd acct 3001 n\nend\nprogram tail1\nhop 1\nget x acct 1000\nhop 3\nget y acct 3001\nend\nprogram seed2 n\nhop 2\nadd acct 2000 n\nend\nprogram near2 n\nhop 2\nget x acct 2000\nneed x >= n\nsub acct 2000 n\nhop 0\nadd acct 1 n\nend\nprogram far2 n f\nhop 2\nget x acct 2000\nlet s n + f\nneed x >= s\nsub acct 2000 s\nhop 3\nadd acct 3002 f\nhop 0\nadd acct 1 n\nend\nprogram tail2\nhop 2\nget x acct 2000\nhop 0\nget y acct 1\nend\nprogram seed3 n\nhop 3\nadd acct 3000 n\nend\nprogram near3 n\nhop 3\nget x acct 3000\nneed x >= n\nsub acct 3000 n\nhop 1\nadd acct 1001 n\nend\nprogram far3 n f\nhop 3\nget x acct 3000\nlet s n + f\nneed x >= s\nsub acct 3000 s\nhop 0\nadd acct 2 f\nhop 1\nadd acct 1001 n\nend\nprogram tail3\nhop 3\nget x acct 3000\nhop 1\nget y acct 1001\nend\nprogram peek\nhop 3\nget y acct 3001\nend\n";
