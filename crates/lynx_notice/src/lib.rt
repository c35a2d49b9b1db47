//! What the folder of a service tells of it: the file `service`, by which clients find the port and
//! the set.
#![tactic(auto)]

pub use notice::{Notice, notice_in, notice_text};
pub use notice_file::{NoticeFile, service_path};

pub mod notice;
pub mod notice_file;
