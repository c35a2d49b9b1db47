//! Why the program stops short: the one line on standard error, and the status.
ghost use Rattle.std.specs.Prelude.{◌≡◌};
ghost use Rattle.lynx_cli.specs.Statuses.{status_of, status_of_carrying, status_of_run};
ghost use Rattle.lynx_service.specs.Faults.{missing_fault, store_fault};
ghost use Rattle.lynx_cli.specs.Stopped.{asking_fault, giving_fault, rerun_fault, restoring_fault, run_fault, sampling_fault, serving_fault, showing_fault};

use crate::carry_word::CarryWord;
use crate::shown::{Shown, ShownTable};
use crate::source::InputFault;
use lynx_args::CommandFault;
use lynx_ask::AskFault;
use lynx_carry::CarryFault;
use lynx_give::GiveFault;
use lynx_lex::TextFault;
use lynx_names::ServerId;
use lynx_report::RunFault;
use lynx_rerun::RerunFault;
use lynx_restore::RestoreFault;
use lynx_sample::SampleFault;
use lynx_service::ServeFault;
use lynx_show::ShowFault;
use lynx_store::StoreFault;
use thiserror::Error;

/// Why the program did not do what it was asked for.
#[derive(Clone, Copy, Debug, PartialEq, Eq, Error)]
pub enum Fault<'a> {
    /// The words ask for nothing that there is.
    #[error("{0}")]
    Command(CommandFault),
    /// No line of the input is `--`.
    #[error("no line -- found")]
    NoSeparator,
    /// A file that can't be read, or `-` for standard input.
    #[error("cannot read {0}")]
    Unread(Shown<'a>),
    /// A file that can't be made or written, or is no regular file.
    #[error("cannot write {0}")]
    Unwritten(Shown<'a>),
    /// A set text that is faulty; never for want of memory.
    #[error("set {0}")]
    Set(TextFault),
    /// A script that is faulty; never for want of memory.
    #[error("script {0}")]
    Script(TextFault),
    /// A store that can't be listed; never for want of memory or a writer.
    #[error("store: {0}")]
    Store(ShowFault),
    /// A service, or a run over stores, that didn't begin, or didn't end well; never for want of
    /// memory or a writer.
    #[error("{0}")]
    Serve(ServeFault),
    /// Asking a service stopped; never for want of memory or a writer.
    #[error("{0}")]
    Ask(AskFault),
    /// Nothing in the folder tells of a service.
    #[error("no service")]
    NoService,
    /// The folder has stores, where new ones are to be made.
    #[error("there are stores already")]
    Occupied,
    /// The books of the folder are closed: they go on in another one.
    #[error("the books are closed; remove carried to go back, if the new ones were never served")]
    Closed,
    /// The file that numbers the books of a folder tells no number, or can't be read.
    #[error("cannot read the file books")]
    BadBooks,
    /// A file that numbers or closes books, or the folder of new ones, can't be made or moved.
    #[error("cannot write the new books")]
    UnwrittenBooks,
    /// The folder in which new books are to be made has something in it, or is none.
    #[error("DIR is no empty folder")]
    NotEmpty,
    /// What is to become the folder of new books is there, and no carrying to it left it.
    #[error("DIR.carrying is there already")]
    InTheWay,
    /// Somebody has the old stores open, or had them while they were carried.
    #[error("the stores were served meanwhile")]
    Meanwhile,
    /// Cells can't be carried; never for want of memory.
    #[error("{0}")]
    Carry(CarryWord),
    /// Nothing at the port tells the status of a service, with its set.
    #[error("no status")]
    NoStatus,
    /// The service has another set than the one by which it is asked.
    #[error("other-set")]
    OtherSet,
    /// A line that looks up is asked over HTTP, and the port of a status isn't known.
    #[error("lines read and find want a service with --status")]
    NoLookups,
    /// The set of the stores has no table of that name.
    #[error("no such table")]
    NoTable,
    /// A word that is to name keys is neither a key nor a range of them.
    #[error("KEYS is no key, and not FROM..TO")]
    BadKeys,
    /// No script was made; never for what stops a run too.
    #[error("{0}")]
    Sample(SampleFault),
    /// Nothing was found that makes a set accepted.
    #[error("no mending was found")]
    NoMending,
    /// Standard output takes no more.
    #[error("cannot write")]
    Write,
    /// Want of memory, of any job or of none.
    #[error("out of memory")]
    Memory,
}

/// The status of a run, a check or a picture that stopped.
fn status_of_run(fault: RunFault) -> u8
    ensures { result ≡ status_of_run fault }
{
    match fault {
        RunFault::Set(_) | RunFault::Script(_) => 2,
        RunFault::Memory => 3,
        RunFault::Write => 4,
    }
}

impl<'a> Fault<'a> {
    /// The fault of reading this file.
    pub fn of_reading(name: &'a str, fault: InputFault) -> Fault<'a>
        ensures read { fault ≡ InputFault.Read → result ≡ Fault.Unread
            (record { name = name.entry }) }
        ensures memory { fault ≡ InputFault.Memory → result ≡ Fault.Memory }
    {
        match fault {
            InputFault::Read => Fault::Unread(Shown { name }),
            InputFault::Memory => Fault::Memory,
        }
    }

    /// The fault of a run, a check, a picture or a chart.
    pub fn of_run(fault: RunFault) -> Fault<'a>
        ensures { result ≡ run_fault fault }
    {
        match fault {
            RunFault::Set(fault) => Fault::Set(fault),
            RunFault::Script(fault) => Fault::Script(fault),
            RunFault::Write => Fault::Write,
            RunFault::Memory => Fault::Memory,
        }
    }

    /// The fault of listing a store.
    pub fn of_showing(fault: ShowFault) -> Fault<'a>
        ensures { result ≡ showing_fault fault }
    {
        match fault {
            ShowFault::Write => Fault::Write,
            ShowFault::Memory => Fault::Memory,
            fault => Fault::Store(fault),
        }
    }

    /// The fault of a service.
    pub fn of_serving(fault: ServeFault) -> Fault<'a>
        ensures { result ≡ serving_fault fault }
    {
        match fault {
            ServeFault::Write => Fault::Write,
            ServeFault::Memory => Fault::Memory,
            fault => Fault::Serve(fault),
        }
    }

    /// The fault of asking a service.
    pub fn of_asking(fault: AskFault) -> Fault<'a>
        ensures { result ≡ asking_fault fault }
    {
        match fault {
            AskFault::Write => Fault::Write,
            AskFault::Memory => Fault::Memory,
            fault => Fault::Ask(fault),
        }
    }

    /// The fault of the store of that server, told as a service tells it.
    pub(crate) fn of_store(server: ServerId, fault: StoreFault) -> Fault<'a>
        ensures { result ≡ serving_fault (store_fault server fault) }
    {
        Fault::of_serving(ServeFault::of_store(server, fault))
    }

    /// The store of that server isn't there, where it was.
    pub(crate) fn of_lost(server: ServerId) -> Fault<'a>
        ensures { result ≡ serving_fault (missing_fault server) }
    {
        Fault::of_serving(ServeFault::of_missing(server))
    }

    /// The fault of giving stores to a set, told as a service tells it.
    pub(crate) fn of_giving(fault: GiveFault) -> Fault<'a>
        ensures { result ≡ giving_fault fault }
    {
        match fault {
            GiveFault::Store { server, fault } => Fault::of_store(server, fault),
            GiveFault::Lost { server } => Fault::of_lost(server),
            GiveFault::Write => Fault::Write,
            GiveFault::Memory => Fault::Memory,
        }
    }

    /// The fault of a run over stores.
    pub fn of_rerun(fault: RerunFault) -> Fault<'a>
        ensures { result ≡ rerun_fault fault }
    {
        match fault {
            RerunFault::Run(fault) => Fault::of_run(fault),
            RerunFault::Store { server, fault } => Fault::of_store(server, fault),
            RerunFault::Apart(fault) => Fault::of_serving(ServeFault::from(fault)),
        }
    }

    /// The fault of making new stores of copies, told as a service tells it.
    pub(crate) fn of_restoring(fault: RestoreFault) -> Fault<'a>
        ensures { result ≡ restoring_fault fault }
    {
        match fault {
            RestoreFault::Copy { server, fault } => {
                Fault::of_serving(ServeFault::of_contents(server, fault))
            }
            RestoreFault::Store { server, fault } => Fault::of_store(server, fault),
            RestoreFault::Taken { .. } => Fault::Occupied,
            RestoreFault::Memory => Fault::Memory,
        }
    }

    /// The fault of carrying cells.
    pub(crate) fn of_carrying(fault: CarryFault) -> Fault<'a>
        ensures { status_of result ≡ status_of_carrying fault }
    {
        match fault {
            CarryFault::NoTable { table } => Fault::Carry(CarryWord::NoTable {
                table: ShownTable::new(&table),
            }),
            CarryFault::NoWriter { table, server } => Fault::Carry(CarryWord::NoWriter {
                table: ShownTable::new(&table),
                server: server.number(),
            }),
            CarryFault::TooMany { server, entries } => Fault::Carry(CarryWord::TooMany {
                server: server.number(),
                entries,
            }),
            CarryFault::Differs => Fault::Carry(CarryWord::Differs),
            CarryFault::Memory => Fault::Memory,
        }
    }

    /// The fault of making a script.
    pub fn of_sampling(fault: SampleFault) -> Fault<'a>
        ensures { result ≡ sampling_fault fault }
    {
        match fault {
            SampleFault::Run(fault) => Fault::of_run(fault),
            fault => Fault::Sample(fault),
        }
    }

    /// The exit status: 1 where no run ended with a cycle that was looked for, no mending was found
    /// or cells can't be carried, 2 for faulty words or texts, 3 for want of memory, 4 for what
    /// can't be read or written.
    pub fn status(&self) -> u8
        ensures { result ≡ status_of self.now }
    {
        match self {
            Fault::Command(_) | Fault::NoSeparator | Fault::Set(_) | Fault::Script(_) => 2,
            Fault::NoTable | Fault::BadKeys => 2,
            Fault::Closed | Fault::BadBooks | Fault::UnwrittenBooks => 4,
            Fault::NotEmpty | Fault::InTheWay | Fault::Meanwhile => 4,
            Fault::Carry(_) => 1,
            Fault::Unread(_) | Fault::Unwritten(_) => 4,
            Fault::Store(_) | Fault::Serve(_) | Fault::Ask(_) => 4,
            Fault::NoService | Fault::NoStatus | Fault::NoLookups => 4,
            Fault::OtherSet | Fault::Occupied => 4,
            Fault::Sample(SampleFault::NoCycle) | Fault::NoMending => 1,
            Fault::Sample(SampleFault::TooLong) => 2,
            Fault::Sample(SampleFault::Run(fault)) => status_of_run(*fault),
            Fault::Memory => 3,
            Fault::Write => 4,
        }
    }
}
