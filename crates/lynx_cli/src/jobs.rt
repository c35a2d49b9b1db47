//! The jobs of the program: files and standard input are opened, and standard output is written.
ghost use Rattle.std.specs.Prelude.{◌≡◌, Ok, Err};
ghost use Rattle.lynx_cli.specs.Statuses.{finished_as};

use crate::asking::{ask_folder, ask_port};
use crate::auditing::{audit_folder, list_owed_in};
use crate::books::{check_open, pass_books};
use crate::carrying::carry_folder;
use crate::extending::extend_folder;
use crate::fault::Fault;
use crate::hints::{Hints, Named};
use crate::looking::{CellWords, find_in_folder, read_folder};
use crate::mending::{MendingView, mend_set};
use crate::reading::text_of;
use crate::restoring::{check_vacant, restore_folder};
use crate::serving::{ServePlace, serve_file};
use crate::source::{MAX_INPUT_BYTES, read_all};
use crate::stored::{StoresIn, rerun_script};
use crate::storing::{show_file, upgrade_file};
use crate::texts::{chart_script, check_set, draw_set, run_input, run_script, sample_set};
use lynx_args::{INPUT, Job, RunFlags, SampleFlags, StoreJob};
use lynx_cluster::Host;
use lynx_draw::Extent;
use lynx_keep::{BatchKeeper, Keeper};
use lynx_report::{CheckOptions, DrawOptions, Why};
use lynx_show::Detail;
use lynx_sql::Rising;
use lynx_store_files::{Copies, Databases, StoreCopy, Stores};
use sqlite::Connection;
use std::io;
use std::io::{BufWriter, Write};
use std::net::{Net, TcpListener, TcpStream};
use std::rt::Files;

/// Does what the words ask for, and gives the status. Files and streams are those of `host`,
/// threads and sockets come by `rt`, which `main` alone can hand out, and a service opens its
/// stores by `stores`. Files are read in the order of the words. Output is written as it fills a
/// buffer, where somebody waits for it, and at the end, also where a fault stops the job. What the
/// fault's line doesn't tell is left in `hints`, where it is wanted.
pub fn do_job<
    'a,
    R: Host + Net<Listener = TcpListener, Stream = TcpStream>,
    K: BatchKeeper + Send + Drop + 'static,
    D: Rising + Drop,
    S: Stores<K> + Databases<Connection<D>> + Copies<StoreCopy> + Sync,
>(host: &HostRuntime, rt: R, stores: &S, job: Job<'a>, hints: &mut Hints) -> Result<u8, Fault<'a>> {
    let Ok(mut writer) = BufWriter::new(host.alloc(), io::writer(host)) else {
        return Err(Fault::Memory);
    };
    let done = do_to(host, rt, stores, job, hints, &mut writer);
    hints.note_file(host, host.alloc(), &done);
    let flushed = writer.flush().is_ok();
    finished(done, flushed)
}

/// Does what the words ask for, with its output to the writer.
fn do_to<
    'a,
    R: Host + Net<Listener = TcpListener, Stream = TcpStream>,
    K: BatchKeeper + Send + Drop + 'static,
    D: Rising + Drop,
    S: Stores<K> + Databases<Connection<D>> + Copies<StoreCopy> + Sync,
    W: Write,
>(
    host: &HostRuntime,
    rt: R,
    stores: &S,
    job: Job<'a>,
    hints: &mut Hints,
    writer: &mut W,
) -> Result<u8, Fault<'a>> {
    match job {
        Job::Check { set, why, all } => check_file(host, set, why_of(why, all), hints, writer),
        Job::Mend { set, write } => mend_file(host, set, view_of(write), hints, writer),
        Job::DrawMended { set, shown, change } => {
            let view = MendingView::Picture { change, shown };
            mend_file(host, set, view, hints, writer)
        }
        Job::Draw { set, shown } => draw_file(host, set, shown, hints, writer),
        Job::Chart { set, script } => chart_files(host, set, script, hints, writer),
        Job::Sample { set, flags } => sample_file(host, set, flags, hints, writer),
        Job::Run { set, script, flags } => run_files(host, set, script, flags, hints, writer),
        Job::RunStores {
            set,
            script,
            folder,
            flags,
        } => {
            let over = StoresIn { stores, folder };
            run_over_stores(host, over, set, script, flags, hints, writer)
        }
        Job::RunInput { flags } => run_standard_input(host, flags, hints, writer),
        Job::Stores(job) => do_with_stores(host, stores, job, hints, writer),
        Job::Serve {
            set,
            folder,
            port,
            flags,
        } => {
            check_books(host, folder, hints)?;
            number_copy(host, stores, folder, flags.copy)?;
            let place = ServePlace { folder, port };
            serve_file(host, rt, stores, set, place, flags, hints, writer)
        }
        Job::Ask { set, port, status } => { ask_port(host, &rt, set, port, status, hints, writer) }
        Job::AskFolder { folder } => ask_folder(host, &rt, folder, hints, writer),
    }
}

/// Whether the books of the folder are open; where they aren't it is noted where they go on.
fn check_books<'a>(host: &HostRuntime, folder: &str, hints: &mut Hints) -> Result<(), Fault<'a>> {
    let open = check_open(host, folder);
    hints.note_books(host.alloc(), folder, &open);
    open
}

/// Gives a folder that is to follow the number of the books that it follows, while it has no store.
/// Of any other the service tells whether it can follow.
fn number_copy<'a, K, S: Stores<K>>(
    host: &HostRuntime,
    stores: &S,
    folder: &str,
    copy: Option<&str>,
) -> Result<(), Fault<'a>> {
    match copy {
        Some(copy) if check_vacant(stores, copy).is_ok() => pass_books(host, folder, copy),
        _ => Ok(()),
    }
}

/// How much a listing tells of each entry.
fn detail_of(full: bool) -> Detail {
    if full { Detail::Full } else { Detail::Brief }
}

/// Does something with stores that nobody serves, with its output to the writer.
fn do_with_stores<
    'a,
    K: BatchKeeper + Send + Drop + 'static,
    D: Rising + Drop,
    S: Stores<K> + Databases<Connection<D>> + Copies<StoreCopy> + Sync,
    W: Write,
>(
    host: &HostRuntime,
    stores: &S,
    job: StoreJob<'a>,
    hints: &mut Hints,
    writer: &mut W,
) -> Result<u8, Fault<'a>> {
    match job {
        StoreJob::Show { store, full } => {
            let detail = detail_of(full);
            show_file(host, stores, store, detail, hints, writer)
        }
        StoreJob::Read {
            folder,
            table,
            keys,
        } => {
            let words = CellWords { table, keys };
            read_folder(host, stores, folder, words, hints, writer)
        }
        StoreJob::Find {
            folder,
            client,
            number,
        } => find_in_folder(host, stores, folder, client, number, hints, writer),
        StoreJob::Upgrade { store } => upgrade_file(host, stores, store, hints, writer),
        StoreJob::Extend { folder, set } => {
            check_books(host, folder, hints)?;
            extend_folder(host, stores, folder, set, hints, writer)
        }
        StoreJob::Restore { place } => restore_folder(host, stores, place, hints, writer),
        StoreJob::Audit { folder } => audit_folder(host, stores, folder, hints, writer),
        StoreJob::Owed { folder } => list_owed_in(host, stores, folder, hints, writer),
        StoreJob::Carry { place } => carry_folder(host, stores, place, hints, writer),
    }
}

/// What a job ends with, whose output was written to its end or not. An earlier fault is the one
/// that is told.
fn finished<'a>(done: Result<u8, Fault<'a>>, flushed: bool) -> Result<u8, Fault<'a>>
    ensures { result ≡ finished_as done.entry flushed }
{
    match done {
        Ok(_) if !flushed => Err(Fault::Write),
        done => done,
    }
}

/// What a check tells of why its verdict is what it is, by these options.
fn why_of(why: bool, all: bool) -> Why {
    if all {
        Why::All
    } else if why {
        Why::Summary
    } else {
        Why::Untold
    }
}

/// Judges the set of a file.
fn check_file<'a, R: Files + AllocGlobal, W: Write>(
    rt: &R,
    set: &'a str,
    why: Why,
    hints: &mut Hints,
    writer: &mut W,
) -> Result<u8, Fault<'a>> {
    let read = text_of(rt, set)?;
    let text = read.as_slice();
    let done = check_set(rt.alloc(), text, CheckOptions { why }, writer);
    hints.note_set(rt.alloc(), Named::new(set, text), &done);
    if !matches!(why, Why::Untold) {
        hints.note_mends(rt.alloc(), Named::new(set, text), &done);
    }
    done
}

/// What `mend` shows: the changes in words, or the text with that one.
fn view_of(write: Option<u8>) -> MendingView {
    match write {
        Some(change) => MendingView::Text(change),
        None => MendingView::List,
    }
}

/// Shows what makes the set of a file accepted.
fn mend_file<'a, R: Files + AllocGlobal, W: Write>(
    rt: &R,
    set: &'a str,
    view: MendingView,
    hints: &mut Hints,
    writer: &mut W,
) -> Result<u8, Fault<'a>> {
    let read = text_of(rt, set)?;
    let text = read.as_slice();
    let done = mend_set(rt.alloc(), text, view, writer);
    hints.note_set(rt.alloc(), Named::new(set, text), &done);
    done
}

/// Draws the set of a file.
fn draw_file<'a, R: Files + AllocGlobal, W: Write>(
    rt: &R,
    set: &'a str,
    shown: Extent,
    hints: &mut Hints,
    writer: &mut W,
) -> Result<u8, Fault<'a>> {
    let read = text_of(rt, set)?;
    let text = read.as_slice();
    let done = draw_set(rt.alloc(), text, DrawOptions { shown }, writer);
    hints.note_set(rt.alloc(), Named::new(set, text), &done);
    done
}

/// Draws a run of the script of a file over the set of another, which is read first.
fn chart_files<'a, R: Files + AllocGlobal, W: Write>(
    rt: &R,
    set: &'a str,
    script: &'a str,
    hints: &mut Hints,
    writer: &mut W,
) -> Result<u8, Fault<'a>> {
    let (set_read, script_read) = (text_of(rt, set)?, text_of(rt, script)?);
    let (set_text, script_text) = (set_read.as_slice(), script_read.as_slice());
    let done = chart_script(rt.alloc(), set_text, script_text, writer);
    let (set, script) = (Named::new(set, set_text), Named::new(script, script_text));
    hints.note_run(rt.alloc(), set, script, &done);
    done
}

/// Makes a random script for the set of a file.
fn sample_file<'a, R: Files + AllocGlobal, W: Write>(
    rt: &R,
    set: &'a str,
    flags: SampleFlags,
    hints: &mut Hints,
    writer: &mut W,
) -> Result<u8, Fault<'a>> {
    let read = text_of(rt, set)?;
    let text = read.as_slice();
    let done = sample_set(rt.alloc(), text, flags, writer);
    hints.note_set(rt.alloc(), Named::new(set, text), &done);
    done
}

/// Runs the script of a file over the set of another, which is read first.
fn run_files<'a, R: Files + AllocGlobal, W: Write>(
    rt: &R,
    set: &'a str,
    script: &'a str,
    flags: RunFlags,
    hints: &mut Hints,
    writer: &mut W,
) -> Result<u8, Fault<'a>> {
    let (set_read, script_read) = (text_of(rt, set)?, text_of(rt, script)?);
    let (set_text, script_text) = (set_read.as_slice(), script_read.as_slice());
    let done = run_script(rt.alloc(), set_text, script_text, flags, writer);
    let (set, script) = (Named::new(set, set_text), Named::new(script, script_text));
    hints.note_run(rt.alloc(), set, script, &done);
    hints.note_begins(rt.alloc(), set, script, &done);
    done
}

/// Runs the script of a file over the set of another, which is read first, and over stores.
fn run_over_stores<'a, K: Keeper + Drop, S: Stores<K>, W: Write>(
    rt: &HostRuntime,
    over: StoresIn<'_, S>,
    set: &'a str,
    script: &'a str,
    flags: RunFlags,
    hints: &mut Hints,
    writer: &mut W,
) -> Result<u8, Fault<'a>> {
    let (set_read, script_read) = (text_of(rt, set)?, text_of(rt, script)?);
    let (set_text, script_text) = (set_read.as_slice(), script_read.as_slice());
    let folder = over.folder;
    check_books(rt, folder, hints)?;
    let done = rerun_script(rt.alloc(), over, set_text, script_text, flags, writer);
    let (set, script) = (Named::new(set, set_text), Named::new(script, script_text));
    hints.note_run(rt.alloc(), set, script, &done);
    hints.note_begins(rt.alloc(), set, script, &done);
    hints.note_store(rt, folder, &done);
    done
}

/// Runs the script of standard input over the set that stands before it.
fn run_standard_input<W: Write>(
    rt: &HostRuntime,
    flags: RunFlags,
    hints: &mut Hints,
    writer: &mut W,
) -> Result<u8, Fault<'static>> {
    let read = match read_all(rt.alloc(), &mut rt.reader(), MAX_INPUT_BYTES) {
        Ok(read) => read,
        Err(fault) => return Err(Fault::of_reading(INPUT, fault)),
    };
    let input = read.as_slice();
    let done = run_input(rt.alloc(), input, flags, writer);
    hints.note_input(rt.alloc(), input, &done);
    done
}
