//! Those who wait for a server: what each asks of it, and where each is told.
use crate::submission::{Completion, Submission};
use lynx_names::Memory;
use std::alloc::Global;
use std::mem;
use std::sync::{Arc, Mutex, Wait};

/// What one who waits is told.
#[derive(Drop)]
pub(crate) enum Word {
    /// To lead: it begins what all ask who wait.
    Lead,
    /// What it asked was done.
    Done(Completion),
}

/// Where one who asked is told.
/// [`SharedServer::await_word`](crate::shared_server::SharedServer::await_word) waits for that.
#[derive(Drop)]
pub(crate) struct Mailbox {
    word: Mutex<Option<Word>>,
}

impl Mailbox {
    /// Of somebody who was told nothing yet.
    pub(crate) fn new() -> Mailbox {
        Mailbox {
            word: Mutex::new(None),
        }
    }

    /// Puts a word there. The one who waits for it has to be woken.
    pub(crate) fn put<R: Wait>(&self, rt: &R, word: Word) {
        *self.word.lock(rt) = Some(word);
    }

    /// What it was told, if it was told something since.
    pub(crate) fn take<R: Wait>(&self, rt: &R) -> Option<Word> {
        mem::replace(&mut *self.word.lock(rt), None)
    }
}

/// One who waits.
#[derive(Drop)]
pub(crate) struct Waiting {
    pub(crate) submission: Submission,
    pub(crate) mailbox: Arc<Mailbox>,
}

/// Those who wait for one server, in the order in which they came. One of them at most leads: it
/// begins what all of them ask, under one taking of the server's lock, and then has the next one
/// lead.
#[derive(Drop)]
pub(crate) struct Queue {
    waiting: Vec<Waiting>,
    is_led: bool,
}

impl Queue {
    /// Of nobody.
    pub(crate) fn new(alloc: Global) -> Queue {
        Queue {
            waiting: Vec::new(alloc),
            is_led: false,
        }
    }

    /// One more. It leads where nobody does.
    pub(crate) fn push(&mut self, waiting: Waiting) -> Result<bool, Memory> {
        self.waiting.push(waiting)?;
        let leads = !self.is_led;
        self.is_led = true;
        Ok(leads)
    }

    /// All who wait, out of it.
    pub(crate) fn take(&mut self, alloc: Global) -> Vec<Waiting> {
        mem::replace(&mut self.waiting, Vec::new(alloc))
    }

    /// Has the first who waits lead, if somebody does.
    pub(crate) fn pass_lead<R: Wait>(&mut self, rt: &R) {
        match self.waiting.as_slice().first() {
            Some(next) => next.mailbox.put(rt, Word::Lead),
            None => self.is_led = false,
        }
    }
}
