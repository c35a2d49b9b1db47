//! What the words of the command line ask for.
ghost use Rattle.std.specs.Prelude.{option_map};
ghost use Rattle.lynx_args.specs.Jobs.{DrawsAs, PicturesAs, RunsAs, ShowsAs};

use lynx_draw::Extent;
use thiserror::Error;

/// What a run does besides, none of it by default.
#[derive(Clone, Copy, Debug, PartialEq, Eq)]
pub struct RunFlags {
    /// A set that offends is refused, as by a check.
    pub checked: bool,
    /// The hops that chains still owe are told behind the last line.
    pub owed: bool,
}

/// A run without flags.
pub(crate) const NO_FLAGS: RunFlags = RunFlags {
    checked: false,
    owed: false,
};

/// What a random script is to be.
#[derive(Clone, Copy, Debug, PartialEq, Eq)]
pub struct SampleFlags {
    /// What its choices are drawn from: the same seed gives the same script.
    pub seed: u64,
    /// Chains that begin, at most.
    pub begins: u8,
    /// Its run ends with a cycle.
    pub cycle: bool,
    /// How many steps a cycle is searched by before random scripts are tried.
    pub effort: u64,
}

/// From where stores are restored, and to where.
#[derive(Clone, Copy, Debug, PartialEq, Eq)]
pub struct RestorePlace<'a> {
    pub from: &'a str,
    pub folder: &'a str,
    /// Of a copy that is damaged what can be read is taken, of one that is missing nothing.
    pub longest: bool,
}

/// From where cells are carried, to where, and by which set.
#[derive(Clone, Copy, Debug, PartialEq, Eq)]
pub struct CarryPlace<'a> {
    pub from: &'a str,
    pub folder: &'a str,
    pub set: &'a str,
    /// The names of tables that aren't carried, with commas between them.
    pub dropped: Option<&'a str>,
}

/// What a service does besides, none of it by default.
#[derive(Clone, Copy, Debug, PartialEq, Eq)]
pub struct ServeFlags<'a> {
    /// The port at which its status is told over HTTP.
    pub status: Option<u16>,
    /// The folder whose stores follow those that are served.
    pub copy: Option<&'a str>,
    /// Its events are told on standard error, a line each.
    pub log: bool,
    /// The file whose end takes these lines.
    pub log_file: Option<&'a str>,
    /// The file that takes the line of the order with which it ends.
    pub order: Option<&'a str>,
    /// Each step has a transaction of its own.
    pub sync_each: bool,
}

/// What is done with stores that nobody serves, with files as they were named.
#[derive(Clone, Copy, Debug, PartialEq, Eq)]
pub enum StoreJob<'a> {
    /// List what a store holds, and of each entry who asked for what where that is wanted.
    Show {
        store: &'a str,
        full: bool,
    },
    /// Tell what cells of the stores of the folder hold: of a table all that aren't 0, or those of
    /// a key or a range of keys.
    Read {
        folder: &'a str,
        table: &'a str,
        keys: Option<&'a str>,
    },
    /// Tell what became of a client's request, by the stores of the folder.
    Find {
        folder: &'a str,
        client: u64,
        number: u64,
    },
    /// Make a store of version 1 one of version 2.
    Upgrade {
        store: &'a str,
    },
    /// Give the stores of the folder to the set of a file, which extends theirs.
    Extend {
        folder: &'a str,
        set: &'a str,
    },
    /// Audit the stores of the folder, which no service has open.
    Audit {
        folder: &'a str,
    },
    /// List the hops that are owed, of the stores of the folder.
    Owed {
        folder: &'a str,
    },
    /// Make stores in the folder, which has none, of what the copies in another hold together; of
    /// what can still be read of them, where the longest fronts are asked for.
    Restore {
        place: RestorePlace<'a>,
    },
    /// Make stores of the set of a file in the folder, which has none, whose cells are those of the
    /// stores in another.
    Carry {
        place: CarryPlace<'a>,
    },
}

/// What the words ask for, with files as they were named.
#[derive(Clone, Copy, Debug, PartialEq, Eq)]
pub enum Job<'a> {
    /// Judge the set of a file, and tell why the verdict is what it is where that is asked for, in
    /// a summary, or with all that it rests on.
    Check {
        set: &'a str,
        why: bool,
        all: bool,
    },
    /// Draw the set of a file, with the verdict on it, or some of its programs alone.
    Draw {
        set: &'a str,
        shown: Extent,
    },
    /// The same of the set with the change of that number, which makes it accepted.
    DrawMended {
        set: &'a str,
        shown: Extent,
        change: u8,
    },
    /// Draw a run of the script of the second file over the set of the first.
    Chart {
        set: &'a str,
        script: &'a str,
    },
    /// Tell what makes the set of a file accepted, or print it with the change of that number.
    Mend {
        set: &'a str,
        write: Option<u8>,
    },
    /// Make a random script for the set of a file.
    Sample {
        set: &'a str,
        flags: SampleFlags,
    },
    /// Run the script of the second file over the set of the first.
    Run {
        set: &'a str,
        script: &'a str,
        flags: RunFlags,
    },
    /// Run the script of the second file over the set of the first, and over the stores of the
    /// set's servers in the folder.
    RunStores {
        set: &'a str,
        script: &'a str,
        folder: &'a str,
        flags: RunFlags,
    },
    /// Run the script of standard input over the set that stands before it.
    RunInput {
        flags: RunFlags,
    },
    /// Do something with stores that nobody serves.
    Stores(StoreJob<'a>),
    /// Serve clients at the port, over the stores of the set's servers in the folder.
    Serve {
        set: &'a str,
        folder: &'a str,
        port: u16,
        flags: ServeFlags<'a>,
    },
    /// Ask the service at the port what the lines of standard input ask, once its set was compared
    /// where the port of its status is told.
    Ask {
        set: &'a str,
        port: u16,
        status: Option<u16>,
    },
    /// Ask the service over the stores of the folder, by the set that it serves.
    AskFolder {
        folder: &'a str,
    },
}

/// Words that ask for nothing, though the parser takes them or never sees them.
#[derive(Clone, Copy, Debug, PartialEq, Eq, Error)]
pub enum CommandFault {
    #[error("a script is missing")]
    NoScript,
    #[error("one script too many")]
    ScriptTooMany,
    /// What standard input runs, runs in memory alone.
    #[error("--stores wants SET and SCRIPT as files")]
    StoresOfInput,
    /// The programs of a walk are those of a set, and not of a run.
    #[error("--walk draws no run")]
    WalkOfRun,
    /// So are those of blocks that stand in the way.
    #[error("--late draws no run")]
    LateOfRun,
    /// What makes a set accepted changes no run.
    #[error("--mended draws no run")]
    MendedOfRun,
    /// Of a set the ones are drawn or the others.
    #[error("--walk or --late, not both")]
    WalkAndLate,
    /// A folder tells itself where the status of its service is.
    #[error("--status wants SET and PORT")]
    StatusOfFolder,
    /// The first word is a command that the program hasn't. The parser refuses it first.
    #[error("no such command")]
    NoCommand,
    /// Some word isn't a text.
    #[error("a word is not UTF-8")]
    NotUtf8,
}

/// Standard input in the place of the files of a run.
pub const INPUT: &str = "-";

/// What `run` and its words ask for: `-` alone is standard input, and any other set wants a script.
/// Stores are those of a folder, where one is named, and want files.
pub(crate) fn job_of_run<'a>(
    set: &'a str,
    script: Option<&'a str>,
    folder: Option<&'a str>,
    flags: RunFlags,
) -> Result<Job<'a>, CommandFault>
    ensures { RunsAs set.now (option_map (λ own. own.now) script.entry)
        (option_map (λ own. own.now) folder.entry) flags result }
{
    match (script, folder) {
        (Some(_), _) if set == INPUT => Err(CommandFault::ScriptTooMany),
        (None, Some(_)) if set == INPUT => Err(CommandFault::StoresOfInput),
        (None, None) if set == INPUT => Ok(Job::RunInput { flags }),
        (None, _) => Err(CommandFault::NoScript),
        (Some(script), None) => Ok(Job::Run { set, script, flags }),
        (Some(script), Some(folder)) => Ok(Job::RunStores {
            set,
            script,
            folder,
            flags,
        }),
    }
}

/// Which programs of a set are drawn.
fn extent_of(walk: bool, late: bool) -> Result<Extent, CommandFault>
    ensures { ShowsAs walk late result }
{
    match (walk, late) {
        (false, false) => Ok(Extent::All),
        (true, false) => Ok(Extent::Walk),
        (false, true) => Ok(Extent::Late),
        (true, true) => Err(CommandFault::WalkAndLate),
    }
}

/// Which picture of a set is drawn: its own, or that with a change.
fn picture_job<'a>(set: &'a str, shown: Extent, mended: Option<u8>) -> Job<'a>
    ensures { PicturesAs set.now shown mended result }
{
    match mended {
        Some(change) => Job::DrawMended { set, shown, change },
        None => Job::Draw { set, shown },
    }
}

/// What `draw` and its words ask for: the picture of a set, or with a script that of a run.
pub(crate) fn job_of_draw<'a>(
    set: &'a str,
    script: Option<&'a str>,
    walk: bool,
    late: bool,
    mended: Option<u8>,
) -> Result<Job<'a>, CommandFault>
    ensures { DrawsAs set.now (option_map (λ own. own.now) script.entry) walk late mended result }
{
    match script {
        None => match extent_of(walk, late) {
            Ok(shown) => Ok(picture_job(set, shown, mended)),
            Err(fault) => Err(fault),
        },
        Some(_) if walk => Err(CommandFault::WalkOfRun),
        Some(_) if late => Err(CommandFault::LateOfRun),
        Some(_) if mended.is_some() => Err(CommandFault::MendedOfRun),
        Some(script) => Ok(Job::Chart { set, script }),
    }
}
