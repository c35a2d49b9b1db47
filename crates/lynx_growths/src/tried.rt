//! What comes of a call that is made again where memory was wanting to it.
ghost use Rattle.std.specs.Prelude.{◌≡◌, ◌↔◌, IsOk, IsTrue};

use lynx_names::Memory;

/// What a call answered.
#[derive(Clone, Copy)]
pub enum Called {
    /// What it is for was done.
    Done,
    /// Memory was wanting.
    Refused,
    /// Something else.
    Other,
}

/// What came of a call.
#[derive(Clone, Copy)]
pub enum Tried {
    /// It was done.
    Done,
    /// Memory was wanting to it, all was as before, and it was done when it was made again.
    Again,
    /// Memory was wanting to it, and not all was as before.
    Changed,
    /// Memory was wanting to it, and it wasn't done when it was made again.
    Lost,
    /// It answered something else.
    Other,
}

impl Tried {
    /// How it is told.
    pub fn word(self) -> &'static str {
        match self {
            Tried::Done => "done",
            Tried::Again => "refused, then done",
            Tried::Changed => "refused, and changed",
            Tried::Lost => "refused, and not done again",
            Tried::Other => "answered otherwise",
        }
    }
}

/// What was answered by a call that may want memory and nothing else.
pub fn of_result<T: Drop>(answer: Result<T, Memory>) -> Called
    ensures { (result ≡ Called.Done) ↔ IsOk answer }
{
    match answer {
        Ok(_) => Called::Done,
        Err(Memory) => Called::Refused,
    }
}

/// What was answered by one that may also give nothing, where something was wanted.
pub fn of_option<T: Drop>(answer: Result<Option<T>, Memory>) -> Called {
    match answer {
        Ok(Some(_)) => Called::Done,
        Ok(None) => Called::Other,
        Err(Memory) => Called::Refused,
    }
}

/// What it is for was made, and is let go by one call: that keeps the proofs of those who make it
/// short.
pub fn done<T: Drop>(_made: T) -> Called {
    Called::Done
}

/// What was answered by a call whose answer is as it should be, or isn't.
pub fn done_if(is_right: bool) -> Called {
    if is_right {
        Called::Done
    } else {
        Called::Other
    }
}

/// What comes of a call that is over.
pub fn ended(answered: Called) -> Tried
    ensures { (result ≡ Tried.Done) ↔ (answered ≡ Called.Done) }
{
    match answered {
        Called::Done => Tried::Done,
        Called::Refused => Tried::Lost,
        Called::Other => Tried::Other,
    }
}

/// What comes of a call to which memory was wanting, and which was made again.
pub fn made_again(is_as_before: bool, second: Called) -> Tried
    ensures { (result ≡ Tried.Again) ↔ (IsTrue is_as_before × (second ≡ Called.Done)) }
{
    match second {
        Called::Done if is_as_before => Tried::Again,
        Called::Done => Tried::Changed,
        _ => Tried::Lost,
    }
}
