//! Asking a service by lines: each line is read to what a client sends, it is sent, and the answer
//! is printed. A faulty line is told, and the next one asked.
#![tactic(auto)]

pub use fault::AskFault;
pub use lookup::{Lookup, range_in, read_lookup};
pub use reading::{Asked, read_asked};
pub use session::{AskSession, LineReply};

mod answering;
pub mod fault;
pub mod lookup;
pub mod reading;
pub mod session;
