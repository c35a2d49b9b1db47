//! What came to a server and isn't served yet.
use lynx_link::Parcel;
use lynx_worker::Arrived;
use std::collections::VecDeque;

/// Some parcel brings a message.
pub(crate) fn brings_message(inbox: &VecDeque<Arrived>) -> bool {
    for arrived in inbox.iter() {
        if matches!(arrived.parcel, Parcel::Message(_)) {
            return true;
        }
    }
    false
}
