//! The stores of the folder that follows: opened, compared with what the servers did, gone on with,
//! and closed.
ghost use Rattle.std.specs.Prelude.{◌≡◌, All, IfErr, IfOk, IfSome, IsTrue, Some, true};
ghost use Rattle.lynx_codec.specs.Entries.{IsEntryInRange};
ghost use Rattle.lynx_entry.specs.Entry.{History};
ghost use Rattle.lynx_follow.specs.Following.{Follows, IsOpened};
ghost use Rattle.lynx_follow.specs.Fronts.{IsFront};
ghost use Rattle.lynx_service.specs.Failures.{IsPlain};

use crate::copy_room::CopyRoom;
use crate::fault::{CopyWord, ServeFault};
use crate::limits::{COPY_RETRY_SECONDS, MOST_COPIED};
use crate::log::Log;
use crate::metrics::Metrics;
use crate::store_files::StoreFile;
use lynx_cluster::Frontend;
use lynx_entry::Entry;
use lynx_follow::{Follower, Opened, Unfollowed};
use lynx_keep::{BatchKeeper, KeepFault};
use lynx_names::ServerId;
use lynx_server::Server;
use lynx_set::ChainSet;
use lynx_store_files::Stores;
use std::alloc::Global;
use std::rt::HostRuntime;
use std::sync::Wait;
use std::time::{Clock, Duration, Instant};

/// The folder that follows, the set whose servers it follows, and who is told of it.
#[derive(Drop)]
pub(crate) struct CopyFolder<'a, S> {
    pub(crate) host: &'a HostRuntime,
    pub(crate) alloc: Global,
    pub(crate) stores: &'a S,
    pub(crate) set: &'a ChainSet,
    pub(crate) folder: &'a str,
    pub(crate) room: &'a CopyRoom,
    pub(crate) log: &'a Log,
}

/// The store that follows a server, while it does.
#[derive(Drop)]
pub(crate) struct Copy<K> {
    server: ServerId,
    follower: Option<Follower<K>>,
    /// The file that it has, or had until it was closed. None where it failed: another file may
    /// stand there once it is opened again.
    file: Option<StoreFile>,
    /// Its file was found gone: it isn't opened again before it was paused.
    is_gone: bool,
    /// When it failed last, or was last tried in vain.
    failed: Option<Instant>,
    /// It couldn't be closed as it ought to be: its log may lie beside its file.
    is_unclosed: bool,
}

/// What is told of a store that failed.
fn word_of(fault: KeepFault) -> CopyWord {
    match fault {
        KeepFault::Memory => CopyWord::Memory,
        KeepFault::Failed => CopyWord::Store,
    }
}

/// Whether it failed so short a while ago that it isn't tried again yet. Where no clock can tell,
/// it is.
fn is_too_soon<R: Clock>(rt: &R, failed: Option<Instant>) -> bool {
    let Some(failed) = failed else {
        return false;
    };
    match failed.elapsed(rt) {
        Ok(elapsed) => elapsed < Duration::from_secs(COPY_RETRY_SECONDS),
        Err(_) => false,
    }
}

/// The store of the folder that follows that server, made where there is none, and what it keeps.
fn open_store<K: BatchKeeper + Drop, S: Stores<K>>(
    folder: &CopyFolder<'_, S>,
    server: ServerId,
) -> Result<Opened<K>, CopyWord>
    ensures { IfOk result (λ opened. (keeper : K)
        × S.store_terms.store_in folder.now.folder.now folder.now.set.now server keeper
        × IsOpened K.terms folder.now.set.now keeper opened) }
{
    let keeper = folder.stores.open(folder.folder, folder.set, server)?;
    let opened = Follower::open(folder.alloc, folder.set, keeper)?;
    Ok(opened)
}

/// The store that follows a server, where what it keeps is a front of what the server did.
fn open_beside<K: BatchKeeper + Drop, S: Stores<K>>(
    folder: &CopyFolder<'_, S>,
    server: &Server<K>,
) -> Result<Follower<K>, CopyWord>
    ensures { IfOk result (λ follower. (front : History)
        × Follows K.terms folder.now.set.now front follower
        × IsFront front server.now.history) }
{
    let opened: Opened<K> = open_store(folder, server.server())?;
    let Some(same) = opened.compare(server.history()) else {
        return Err(CopyWord::OtherHistory);
    };
    match same.into_follower() {
        Some(follower) => Ok(follower),
        None => Err(CopyWord::OtherHistory),
    }
}

/// The store that follows a server that runs, where what it keeps is a front of what the server
/// did: its history is asked for in parts, so that nobody who begins there waits for all of it.
fn open_behind<R: Wait + Clock, K: BatchKeeper + Drop, S: Stores<K>>(
    rt: &R,
    frontend: &Frontend<K, Metrics<R>>,
    folder: &CopyFolder<'_, S>,
    server: ServerId,
) -> Result<Follower<K>, CopyWord> {
    let mut opened: Opened<K> = open_store(folder, server)?;
    let all = opened.left();
    for _ in 0..=all / MOST_COPIED {
        let from = all.saturating_sub(opened.left());
        let count = opened.left().min(MOST_COPIED);
        let did = frontend.entries_from(rt, folder.alloc, server, from, count)?;
        let Some(same) = opened.compare(did.as_slice()) else {
            return Err(CopyWord::OtherHistory);
        };
        opened = same;
    }
    opened.into_follower().ok_or(CopyWord::OtherHistory)
}

impl<K: BatchKeeper + Drop> Copy<K> {
    /// The store of the folder that follows the server, opened before the server runs. Where what
    /// it keeps is no front of what the server did, nothing of it is changed.
    pub(crate) fn open<S: Stores<K>>(
        folder: &CopyFolder<'_, S>,
        server: &Server<K>,
    ) -> Result<Copy<K>, ServeFault>
        ensures { IfErr result IsPlain }
    {
        let number = server.server();
        let follower = match open_beside(folder, server) {
            Ok(follower) => follower,
            Err(word) => return Err(ServeFault::of_copy(number, word)),
        };
        let mut copy = Copy {
            server: number,
            follower: None,
            file: None,
            is_gone: false,
            failed: None,
            is_unclosed: false,
        };
        copy.begin(folder, follower);
        Ok(copy)
    }

    /// It follows from now on.
    fn begin<S>(&mut self, folder: &CopyFolder<'_, S>, follower: Follower<K>) {
        folder.room.note(self.server, follower.count());
        folder.log.copying(self.server, follower.count());
        let file = StoreFile::of(folder.host, folder.alloc, folder.folder, self.server);
        self.file = file.ok();
        self.follower = Some(follower);
        self.failed = None;
        self.is_unclosed = false;
    }

    /// Opens the store again where it doesn't follow, unless it failed a short while ago.
    pub(crate) fn open_again<R: Wait + Clock, S: Stores<K>>(
        &mut self,
        rt: &R,
        frontend: &Frontend<K, Metrics<R>>,
        folder: &CopyFolder<'_, S>,
    ) {
        if self.follower.is_some() || self.is_gone || is_too_soon(rt, self.failed) {
            return;
        }
        match open_behind(rt, frontend, folder, self.server) {
            Ok(follower) => self.begin(folder, follower),
            Err(word) => {
                folder.log.copy_failed(self.server, word, None);
                folder.room.lose(self.server);
                self.failed = Instant::now(rt).ok();
            }
        }
    }

    /// Opens the store where it doesn't follow, and appends all that the server did, which does
    /// nothing more.
    pub(crate) fn catch_up<R: Wait + Clock, S: Stores<K>>(
        &mut self,
        rt: &R,
        frontend: &Frontend<K, Metrics<R>>,
        folder: &CopyFolder<'_, S>,
    ) {
        self.failed = None;
        self.open_again(rt, frontend, folder);
        for _ in rt.forever() {
            if !self.follow(rt, frontend, folder) {
                break;
            }
        }
    }

    /// What is wrong with the store in the end, with its server: it lacks something of what that
    /// did. One that doesn't follow is taken to lack something.
    pub(crate) fn lacking<R: Wait + Clock>(
        &self,
        rt: &R,
        frontend: &Frontend<K, Metrics<R>>,
    ) -> Option<(ServerId, CopyWord)> {
        let has_all = match (&self.follower, frontend.glance(rt, self.server)) {
            (Some(follower), Some(glance)) => follower.count() >= glance.entries,
            _ => false,
        };
        (!has_all).then_some((self.server, CopyWord::Behind))
    }

    /// Looks whether the file of the store is still there, and lets go of the store where it isn't,
    /// which is told. What is wrong with it then, with its server.
    pub(crate) fn look<S>(&mut self, folder: &CopyFolder<'_, S>) -> Option<(ServerId, CopyWord)> {
        let is_gone = self.is_gone
            || self
                .file
                .as_ref()
                .is_some_and(|file| file.is_gone(folder.host));
        if is_gone && !self.is_gone {
            self.is_gone = true;
            self.follower = None;
            folder.log.copy_failed(self.server, CopyWord::Gone, None);
            folder.room.note_gone(self.server);
        }
        is_gone.then_some((self.server, CopyWord::Gone))
    }

    /// It may be opened again, and its file be another one then.
    pub(crate) fn forget_file(&mut self) {
        self.file = None;
        self.is_gone = false;
    }

    /// Appends what the server did behind what the store has, so much at a time at most. Whether
    /// there may be more. A store that fails is let go, and told.
    pub(crate) fn follow<R: Wait + Clock, S>(
        &mut self,
        rt: &R,
        frontend: &Frontend<K, Metrics<R>>,
        folder: &CopyFolder<'_, S>,
    ) -> bool {
        let server = self.server;
        let Some(follower) = &self.follower else {
            return false;
        };
        let from = follower.count() as usize;
        let Ok(did) = frontend.entries_from(rt, folder.alloc, server, from, MOST_COPIED) else {
            return false;
        };
        !did.is_empty() && self.append(rt, folder, did.as_slice()) && did.len() == MOST_COPIED
    }

    /// Appends these entries behind what the store has. Whether it follows on.
    fn append<R: Clock, S>(&mut self, rt: &R, folder: &CopyFolder<'_, S>, did: &[Entry]) -> bool
        requires range { All IsEntryInRange did.now }
    {
        let Some(follower) = self.follower.take() else {
            return false;
        };
        match follower.follow(folder.alloc, folder.set, did) {
            Ok(follower) => {
                folder.room.note(self.server, follower.count());
                self.follower = Some(follower);
                true
            }
            Err(Unfollowed { fault, keeper }) => {
                let word = word_of(fault);
                folder.log.copy_failed(self.server, word, keeper.cause());
                folder.room.leave(self.server);
                self.file = None;
                self.failed = Instant::now(rt).ok();
                false
            }
        }
    }

    /// The keeper of the store, where it is open, or couldn't be closed.
    fn keeper_to_close<S: Stores<K>>(&mut self, folder: &CopyFolder<'_, S>) -> Option<K>
        ensures { IfSome self.old.follower (λ it. result ≡ Some it.keeper) }
    {
        match self.follower.take() {
            Some(follower) => Some(follower.into_keeper()),
            None if self.is_unclosed => folder
                .stores
                .open(folder.folder, folder.set, self.server)
                .ok(),
            None => None,
        }
    }

    /// Closes this keeper of the store. Whether that went well; else it is told.
    fn let_go<S: Stores<K>>(&self, folder: &CopyFolder<'_, S>, keeper: K) -> bool
        ensures { S.store_terms.closed keeper result }
    {
        match folder.stores.close(keeper) {
            Ok(()) => true,
            Err(fault) => {
                let word = CopyWord::from(fault);
                folder.log.copy_failed(self.server, word, None);
                false
            }
        }
    }

    /// Closes the store. Whether its file has all that it keeps, without a log beside it. One that
    /// can't be closed so is told; what it keeps stands.
    pub(crate) fn close<S: Stores<K>>(&mut self, folder: &CopyFolder<'_, S>) -> bool
        ensures { IsTrue result
            → IfSome self.old.follower (λ it. S.store_terms.closed it.keeper true) }
    {
        self.failed = None;
        folder.room.leave(self.server);
        let Some(keeper) = self.keeper_to_close(folder) else {
            return !self.is_unclosed;
        };
        let is_closed = self.let_go(folder, keeper);
        self.is_unclosed = !is_closed;
        is_closed
    }
}
