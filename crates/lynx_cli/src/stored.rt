//! Runs over stores, from their texts to any writer.
ghost use Rattle.std.specs.Prelude.{◌≡◌, IfOk};
ghost use Rattle.lynx_set.specs.Rules.{IsSet};
ghost use Rattle.lynx_set.specs.Text.{text_of};
ghost use Rattle.lynx_cli.specs.Done.{HasRerun, HasRerunJudged, HasRerunTexts};

use crate::fault::Fault;
use crate::texts::{OFFENDING, status_of_ending};
use lynx_args::RunFlags;
use lynx_keep::Keeper;
use lynx_report::{RunOptions, accepted_set, read_set};
use lynx_rerun::rerun;
use lynx_set::ChainSet;
use lynx_store_files::Stores;
use std::alloc::Global;
use std::io::Write;

/// The stores of a folder.
#[derive(Clone, Copy)]
pub(crate) struct StoresIn<'a, S> {
    pub(crate) stores: &'a S,
    pub(crate) folder: &'a str,
}

/// Runs a script over a set that is read already, and over stores, writes its lines and gives the
/// status.
fn rerun_read<'a, K: Keeper + Drop, S: Stores<K>, W: Write>(
    alloc: Global,
    over: StoresIn<'_, S>,
    set: &ChainSet,
    script: &[u8],
    options: RunOptions,
    writer: &mut W,
) -> Result<u8, Fault<'a>>
    requires { IsSet set.now }
    ensures { IfOk result (HasRerunTexts K.terms S.store_terms over.entry.folder.now options
        (text_of set.now) script.now (W.contents writer.old) (W.contents writer.new)) }
{
    let StoresIn { stores, folder } = over;
    match rerun(alloc, stores, folder, set, script, options, writer) {
        Ok(ending) => Ok(status_of_ending(ending)),
        Err(fault) => Err(Fault::of_rerun(fault)),
    }
}

/// The same over the set of a text.
fn rerun_unjudged<'a, K: Keeper + Drop, S: Stores<K>, W: Write>(
    alloc: Global,
    over: StoresIn<'_, S>,
    set: &[u8],
    script: &[u8],
    options: RunOptions,
    writer: &mut W,
) -> Result<u8, Fault<'a>>
    ensures { IfOk result (HasRerunTexts K.terms S.store_terms over.entry.folder.now options
        set.now script.now (W.contents writer.old) (W.contents writer.new)) }
{
    match read_set(alloc, set) {
        Ok(set) => rerun_read(alloc, over, &set, script, options, writer),
        Err(fault) => Err(Fault::of_run(fault)),
    }
}

/// The same over the set of a text, if it is accepted. One that offends is refused: its verdict is
/// written, the script isn't judged, and no store is opened.
fn rerun_judged<'a, K: Keeper + Drop, S: Stores<K>, W: Write>(
    alloc: Global,
    over: StoresIn<'_, S>,
    set: &[u8],
    script: &[u8],
    options: RunOptions,
    writer: &mut W,
) -> Result<u8, Fault<'a>>
    ensures { IfOk result (HasRerunJudged K.terms S.store_terms over.entry.folder.now options
        set.now script.now (W.contents writer.old) (W.contents writer.new)) }
{
    match accepted_set(alloc, set, writer) {
        Ok(Some(accepted)) => rerun_read(alloc, over, &accepted, script, options, writer),
        Ok(None) => Ok(OFFENDING),
        Err(fault) => Err(Fault::of_run(fault)),
    }
}

/// Runs a script over a set as the flags ask for, and over stores.
pub(crate) fn rerun_script<'a, K: Keeper + Drop, S: Stores<K>, W: Write>(
    alloc: Global,
    over: StoresIn<'_, S>,
    set: &[u8],
    script: &[u8],
    flags: RunFlags,
    writer: &mut W,
) -> Result<u8, Fault<'a>>
    ensures { IfOk result (HasRerun K.terms S.store_terms over.entry.folder.now flags set.now
        script.now (W.contents writer.old) (W.contents writer.new)) }
{
    let options = RunOptions { owed: flags.owed };
    if flags.checked {
        rerun_judged(alloc, over, set, script, options, writer)
    } else {
        rerun_unjudged(alloc, over, set, script, options, writer)
    }
}
