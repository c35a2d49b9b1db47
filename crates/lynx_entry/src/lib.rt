//! What a server keeps and sends: requests, answers, entries and messages; and the events of a
//! world with what they come to.
#![tactic(auto)]

pub use answer::{Answer, Delivered};
pub use entry::{BegunEntry, Entry, HopEntry, RefusedEntry};
pub use event::{Event, Outcome};
pub use lynx_names::{NumberAt, Numbers, TryCopy};
pub use message::{Message, ResultLists};
pub use request::Request;
pub use room::AnswerRoom;

pub mod answer;
pub mod entry;
pub mod event;
pub mod message;
pub mod request;
pub mod room;
