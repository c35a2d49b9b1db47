//! The databases of a folder's stores, whatever set they are of.
use crate::carried::check_carried;
use crate::files::{Files, store_path};
use crate::presence::{check_folder, has_store, judge};
use lynx_names::ServerId;
use lynx_sql::schema::is_empty;
use lynx_store::StoreFault;
use sqlite::{Connection, File, FileStore};

/// Where servers have the databases of their stores, whatever sets these are of.
pub trait Databases<C> {
    ghost use Rattle.std.specs.Prelude.{ℕ, Bool, List, Option, IfOk, is_ok};

    // What stands in the folder of this server's store: its database, as it was opened, or none.
    ghost opened_at: { List ℕ → ℕ → Option C → Type 0 };

    // The database was let go, well or not.
    ghost database_closed: { C → Bool → Type 0 };

    /// The database of that server's store in the folder. None where there is nothing of a store,
    /// or no more than what a stop within its making leaves, a database without tables. It is
    /// locked while it is open, and nothing is made.
    fn open_database(&self, folder: &str, server: ServerId) -> Result<Option<C>, StoreFault>
        ensures opened { IfOk result (opened_at folder.now server) };

    /// Closes the database of a store: its log is copied into the file. After a fault all that was
    /// kept stands, the log beside the file.
    fn close_database(&self, database: C) -> Result<(), StoreFault>
        ensures told { database_closed database (is_ok result) };
}

// Damaged where the file is no database's, or was emptied beside its log; Store where the folder
// isn't there, its books are closed, or another process has the file. No clause ties a file to its
// path: the kit has none that could.
impl Databases<Connection<FileStore<File>>> for Files {
    ghost opened_at = { λ folder server found. Unit {0} };

    ghost database_closed = { λ database is_well. Unit {0} };

    fn open_database(
        &self,
        folder: &str,
        server: ServerId,
    ) -> Result<Option<Connection<FileStore<File>>>, StoreFault> {
        check_folder(&self.rt, folder)?;
        let path = store_path(self.rt.alloc(), folder, server)?;
        if !has_store(&self.rt, path.as_str())? {
            return Ok(None);
        }
        judge(&self.rt, path.as_str())?;
        let Ok(conn) = Connection::open(&self.rt, path.as_str()) else {
            return Err(StoreFault::Store);
        };
        check_carried(&self.rt, folder)?;
        if is_empty(conn.schema()) {
            return Ok(None);
        }
        Ok(Some(conn))
    }

    fn close_database(&self, database: Connection<FileStore<File>>) -> Result<(), StoreFault> {
        match database.close_files() {
            Ok(files) => {
                drop(files);
                Ok(())
            }
            Err((_, store)) => {
                drop(store.close());
                Err(StoreFault::Store)
            }
        }
    }
}
