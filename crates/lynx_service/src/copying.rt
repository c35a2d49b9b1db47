//! The thread that copies: what servers add is appended to stores of their own in another folder.
ghost use Rattle.std.specs.Prelude.{IfErr};
ghost use Rattle.lynx_service.specs.Failures.{IsPlain};

use crate::connections::Connections;
use crate::copies::{Copy, CopyFolder};
use crate::fault::{CopyWord, ServeFault};
use crate::limits::{COPY_LOOK_MILLIS, COPY_MILLIS};
use crate::metrics::Metrics;
use lynx_cluster::Frontend;
use lynx_keep::BatchKeeper;
use lynx_names::ServerId;
use lynx_server::Server;
use lynx_store_files::Stores;
use std::sync::{Mutex, Wait};
use std::thread;
use std::time::{Clock, Duration, Instant};

/// Whether a second has gone by since the files of the stores were looked at. So it is where no
/// clock can tell.
fn is_due<R: Clock>(rt: &R, looked: Option<Instant>) -> bool {
    let Some(looked) = looked else {
        return true;
    };
    match looked.elapsed(rt) {
        Ok(elapsed) => elapsed >= Duration::from_millis(COPY_LOOK_MILLIS),
        Err(_) => true,
    }
}

/// The stores that follow the servers of a cluster.
#[derive(Drop)]
pub(crate) struct Copier<'a, K, S> {
    pub(crate) folder: CopyFolder<'a, S>,
    /// By server. One thread at a time goes over them.
    copies: Mutex<Vec<Copy<K>>>,
}

impl<'a, K: BatchKeeper + Drop, S: Stores<K>> Copier<'a, K, S> {
    /// Opens the stores of the folder behind these servers. The first that can't follow is told.
    pub(crate) fn open(
        folder: CopyFolder<'a, S>,
        servers: &[Server<K>],
    ) -> Result<Copier<'a, K, S>, ServeFault>
        ensures { IfErr result IsPlain }
    {
        let mut copies = Vec::new(folder.alloc);
        for server in servers {
            copies.push(Copy::open(&folder, server)?)?;
        }
        let copies = Mutex::new(copies);
        Ok(Copier { folder, copies })
    }

    /// Copies until nobody is served any more: a pass each tenth of a second, and at once after one
    /// that had more to do.
    pub(crate) fn run<R: Wait + Clock>(
        &self,
        rt: &R,
        frontend: &Frontend<K, Metrics<R>>,
        connections: &Connections,
    ) {
        let mut looked = None;
        for _ in rt.forever() {
            if connections.are_closed() && connections.clients(rt) == 0 {
                break;
            }
            if is_due(rt, looked) {
                self.look(rt);
                looked = Instant::now(rt).ok();
            }
            if !self.pass(rt, frontend) {
                thread::sleep(rt, Duration::from_millis(COPY_MILLIS));
            }
        }
    }

    /// Looks whether the files of the stores are still there. The first that isn't is told.
    fn look<R: Wait>(&self, rt: &R) -> Option<(ServerId, CopyWord)> {
        let mut gone = None;
        let mut copies = self.copies.lock(rt);
        for copy in copies.iter_mut() {
            gone = gone.or(copy.look(&self.folder));
        }
        gone
    }

    /// One pass: the stores are closed where they are to be, or those that don't follow are opened
    /// again, and all get what their servers did meanwhile. Whether some may have more.
    fn pass<R: Wait + Clock>(&self, rt: &R, frontend: &Frontend<K, Metrics<R>>) -> bool {
        if let Some(number) = self.folder.room.pause() {
            self.pause(rt, number);
            return false;
        }
        let mut is_more = false;
        let mut copies = self.copies.lock(rt);
        for copy in copies.iter_mut() {
            copy.open_again(rt, frontend, &self.folder);
            is_more |= copy.follow(rt, frontend, &self.folder);
        }
        is_more
    }

    /// Closes the stores, if that wasn't tried since the pause of that number was asked for.
    fn pause<R: Wait>(&self, rt: &R, number: u64) {
        let room = self.folder.room;
        if room.is_paused(number) || room.is_unclosed(number) {
            return;
        }
        if self.close(rt) {
            self.forget_files(rt);
            room.note_pause(number);
            self.folder.log.copy_paused();
        } else {
            room.note_unclosed(number);
        }
    }

    /// Other files may stand there once the stores are opened again.
    fn forget_files<R: Wait>(&self, rt: &R) {
        let mut copies = self.copies.lock(rt);
        for copy in copies.iter_mut() {
            copy.forget_file();
        }
    }

    /// Has the stores that aren't paused follow to the end. Those that don't follow are opened
    /// before. The first whose store lacks something then is told.
    fn catch_up<R: Wait + Clock>(
        &self,
        rt: &R,
        frontend: &Frontend<K, Metrics<R>>,
    ) -> Option<(ServerId, CopyWord)> {
        if self.folder.room.pause().is_some() {
            return None;
        }
        let mut lacking = None;
        let mut copies = self.copies.lock(rt);
        for copy in copies.iter_mut() {
            copy.catch_up(rt, frontend, &self.folder);
            lacking = lacking.or(copy.lacking(rt, frontend));
        }
        lacking
    }

    /// Appends the rest of what all servers did, once they do nothing more, and closes the stores.
    /// The first server whose store is gone then is told, or else the first whose store lacks
    /// something.
    pub(crate) fn finish<R: Wait + Clock>(
        &self,
        rt: &R,
        frontend: &Frontend<K, Metrics<R>>,
    ) -> Result<(), ServeFault>
        ensures { IfErr result IsPlain }
    {
        self.look(rt);
        let lacking = self.catch_up(rt, frontend);
        self.close(rt);
        match self.look(rt).or(lacking) {
            Some((server, word)) => Err(ServeFault::of_copy(server, word)),
            None => Ok(()),
        }
    }

    /// Closes the stores. Whether that went well with all of them.
    fn close<R: Wait>(&self, rt: &R) -> bool {
        let mut are_closed = true;
        let mut copies = self.copies.lock(rt);
        for copy in copies.iter_mut() {
            are_closed &= copy.close(&self.folder);
        }
        are_closed
    }
}
