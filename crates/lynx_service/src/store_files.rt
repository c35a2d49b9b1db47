//! The files of the stores, as long as their names lead to them.
ghost use Rattle.std.specs.Prelude.{IfErr};
ghost use Rattle.lynx_service.specs.Failures.{IsPlain};

use crate::connections::Connections;
use crate::fault::{ServeFault, StoreWord};
use crate::identity::{Identity, identity_of};
use crate::limits::{LOOK_STEP_MILLIS, LOOK_STEPS};
use crate::log::Log;
use lynx_names::{Memory, ServerId};
use lynx_set::ChainSet;
use lynx_store_files::store_path;
use std::alloc::Global;
use std::io::ErrorKind;
use std::rt::HostRuntime;
use std::sync::atomic::{AtomicBool, Ordering};
use std::sync::{Mutex, Wait};
use std::time::{Clock, Duration};
use std::{fs, thread};

/// The file of a store that was opened by its name.
#[derive(Drop)]
pub(crate) struct StoreFile {
    server: ServerId,
    path: String,
    /// None where it couldn't be asked for.
    identity: Option<Identity>,
}

impl StoreFile {
    /// That of the server's store in the folder, which is open.
    pub(crate) fn of(
        host: &HostRuntime,
        alloc: Global,
        folder: &str,
        server: ServerId,
    ) -> Result<StoreFile, Memory> {
        let path = store_path(alloc, folder, server)?;
        let identity = match fs::metadata(host, path.as_str()) {
            Ok(found) => Some(identity_of(&found)),
            Err(_) => None,
        };
        Ok(StoreFile {
            server,
            path,
            identity,
        })
    }

    /// Whether the name leads to nothing, or to another file: the file, or a folder above it, was
    /// removed, moved or replaced. Where the system can't tell, it isn't so.
    pub(crate) fn is_gone(&self, host: &HostRuntime) -> bool {
        let Some(identity) = self.identity else {
            return false;
        };
        match fs::metadata(host, self.path.as_str()) {
            Ok(found) => identity_of(&found) != identity,
            Err(error) => { matches!(error.kind(), ErrorKind::NotFound | ErrorKind::NotADirectory) }
        }
    }
}

/// Waits a second, or less where nobody is served any more. Whether somebody is, or may come.
fn is_served_for_a_second<R: Wait + Clock>(rt: &R, connections: &Connections) -> bool {
    for _ in 0..LOOK_STEPS {
        if connections.are_closed() && connections.clients(rt) == 0 {
            return false;
        }
        thread::sleep(rt, Duration::from_millis(LOOK_STEP_MILLIS));
    }
    true
}

/// The files of the stores of all servers. Once one of them was found gone, they count as gone
/// until the service is begun again.
#[derive(Drop)]
pub struct StoreFiles {
    host: HostRuntime,
    /// By server.
    files: Vec<StoreFile>,
    are_gone: AtomicBool,
    /// The first server whose file was found gone.
    gone: Mutex<Option<ServerId>>,
}

impl StoreFiles {
    /// Those of the servers of that set in the folder, which are open.
    pub(crate) fn of(
        host: &HostRuntime,
        alloc: Global,
        folder: &str,
        set: &ChainSet,
    ) -> Result<StoreFiles, Memory> {
        let mut files = Vec::new(alloc);
        for number in 0..set.servers() {
            files.push(StoreFile::of(host, alloc, folder, ServerId::at(number))?)?;
        }
        Ok(StoreFiles {
            host: *host,
            files,
            are_gone: AtomicBool::new(false),
            gone: Mutex::new(None),
        })
    }

    /// Whether one was found gone.
    pub(crate) fn are_gone(&self) -> bool {
        self.are_gone.load(Ordering::SeqCst)
    }

    /// The first server whose file is gone now.
    fn first_gone(&self) -> Option<ServerId> {
        let gone = self.files.iter().find(|file| file.is_gone(&self.host));
        gone.map(|file| file.server)
    }

    /// Looks whether they are still there. The first time that one is gone, that is told.
    fn look<R: Wait>(&self, rt: &R, log: &Log) {
        if self.are_gone() {
            return;
        }
        if let Some(server) = self.first_gone() {
            *self.gone.lock(rt) = Some(server);
            self.are_gone.store(true, Ordering::SeqCst);
            log.store_gone(server);
        }
    }

    /// Looks once a second whether they are still there, until nobody is served any more.
    pub(crate) fn guard<R: Wait + Clock>(&self, rt: &R, connections: &Connections, log: &Log) {
        for _ in rt.forever() {
            self.look(rt, log);
            if !is_served_for_a_second(rt, connections) {
                break;
            }
        }
    }

    /// Looks once more, behind the end of all that is stored. Tells the first server whose file was
    /// found gone, then or before.
    pub(crate) fn check<R: Wait>(&self, rt: &R, log: &Log) -> Result<(), ServeFault>
        ensures { IfErr result IsPlain }
    {
        self.look(rt, log);
        match *self.gone.lock(rt) {
            Some(server) => Err(ServeFault::Store {
                server: server.number(),
                word: StoreWord::Gone,
            }),
            None => Ok(()),
        }
    }
}
