//! What a worker does with the server that it serves.
use lynx_entry::Message;
use lynx_link::Parcel;
use lynx_names::{ChainId, Memory, ServerId};
use std::alloc::Global;
use std::collections::VecDeque;
use std::sync::Wait;
use std::thread;
use std::time::{Clock, Duration};

/// A message that a server owes: the place in its history of the entry that sends it, and the
/// server that it is for.
#[derive(Debug, PartialEq, Eq, Drop)]
pub struct Due {
    pub place: u64,
    pub to: ServerId,
    pub message: Message,
}

/// What a server owes from a place of its history on.
#[derive(Debug, PartialEq, Eq, Drop)]
pub struct Owed {
    /// From where it was asked.
    pub from: u64,
    /// The first messages, in the order of the history.
    pub dues: Vec<Due>,
    /// The length of the history, where these are all that it owes. None where there may be more.
    pub end: Option<u64>,
    /// Messages are held, one of which may be woken.
    pub holds: bool,
}

/// A parcel that came in, and the server that it came from.
#[derive(Debug, PartialEq, Eq, Drop)]
pub struct Arrived {
    pub from: ServerId,
    pub parcel: Parcel,
}

/// That hop of the chain was done, of which that server sent the message.
#[derive(Clone, Copy, Debug, PartialEq, Eq)]
pub struct Acknowledgement {
    pub to: ServerId,
    pub chain: ChainId,
    pub hop: u8,
}

/// That server acknowledged the message of the entry at that place.
#[derive(Clone, Copy, Debug, PartialEq, Eq)]
pub struct Heard {
    pub from: ServerId,
    pub place: u64,
}

/// What came of the parcels that were taken.
#[derive(Debug, PartialEq, Eq, Drop)]
pub struct Handled {
    /// For the hops that were done, now or before, so that their messages need not be sent again.
    pub acknowledgements: Vec<Acknowledgement>,
    /// The messages of this server that were acknowledged.
    pub heard: Vec<Heard>,
    /// A parcel was taken, or a held message was delivered.
    pub is_busy: bool,
}

impl Handled {
    /// Nothing came of anything yet. Takes no memory.
    pub fn new(alloc: Global) -> Handled {
        Handled {
            acknowledgements: Vec::new(alloc),
            heard: Vec::new(alloc),
            is_busy: false,
        }
    }
}

/// What a worker does with the server that it serves. Each call takes the server's lock once, for
/// many messages or parcels: a lock that is taken for each makes those wait that begin there.
pub trait Steps {
    ghost use Rattle.std.specs.Prelude.{◌≡◌};

    /// What the server owes from that place of its history on, with so many messages at most.
    fn owed<R: Wait>(&self, rt: &R, alloc: Global, from: u64, most: usize) -> Owed
        ensures from { result.from ≡ from };

    /// The messages of those of these places that still owe one, in order.
    fn owed_at<R: Wait>(&self, rt: &R, alloc: Global, places: &[u64]) -> Result<Vec<Due>, Memory>;

    /// Wakes the held messages whose turn it is, and takes parcels out of the inbox from its front
    /// on and does what they ask: one that a message brings is delivered, and then the held ones
    /// are woken that waited for it. It makes one step at least where there is one to make, and may
    /// leave the others to the next call.
    fn serve<R: Wait + Clock>(
        &self,
        rt: &R,
        alloc: Global,
        inbox: &mut VecDeque<Arrived>,
    ) -> Handled;

    /// Rests for so long at most, less where the worker is signalled.
    fn rest<R: Wait + Clock>(&self, rt: &R, most: Duration) {
        thread::sleep(rt, most);
    }

    /// Notes, once a pass, how far the server owes nothing: every message of an entry before that
    /// place was acknowledged.
    fn note_owed<R: Wait>(&self, _rt: &R, _from: u64) {}

    /// Signals the worker of that server, to which something was sent.
    fn signal(&self, _to: ServerId) {}
}
