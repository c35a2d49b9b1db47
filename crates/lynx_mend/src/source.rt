//! The text of a set in parts, of which those of other sets are made.
use crate::actions::{Kept, put_hop};
use crate::trial::Trial;
use crate::writing::{end_line, put_end, put_head};
use lynx_names::{Memory, ProgramId};
use lynx_set::{ChainSet, Name, Program, Version};
use lynx_shards::Shard;
use lynx_text::printing::{put_number, put_word};
use std::alloc::Global;

/// The text of a set that is to be changed, in parts.
#[derive(Debug, Drop)]
pub(crate) struct Source {
    version: Version,
    /// The lines of its servers and tables.
    tables: Vec<u8>,
    programs: Vec<Vec<u8>>,
}

fn put_shard(alloc: Global, out: &mut Vec<u8>, shard: &Shard) -> Result<(), Memory> {
    out.extend_from_slice(b"shard ".as_slice())?;
    put_number(alloc, out, shard.low)?;
    out.push(b' ')?;
    put_number(alloc, out, shard.high)?;
    out.push(b' ')?;
    put_number(alloc, out, u64::from(shard.server.number()))?;
    end_line(out)
}

fn put_table(
    alloc: Global,
    out: &mut Vec<u8>,
    name: &Name,
    shards: &[Shard],
) -> Result<(), Memory> {
    out.extend_from_slice(b"table".as_slice())?;
    put_word(out, name.as_bytes())?;
    end_line(out)?;
    for shard in shards {
        put_shard(alloc, out, shard)?;
    }
    Ok(())
}

/// The lines of the servers and tables of a set.
fn tables_text(alloc: Global, set: &ChainSet) -> Result<Vec<u8>, Memory> {
    let mut out = Vec::new(alloc);
    out.extend_from_slice(b"servers ".as_slice())?;
    put_number(alloc, &mut out, u64::from(set.servers()))?;
    end_line(&mut out)?;
    for (place, name) in set.tables().as_slice().iter().enumerate() {
        if let Some(shards) = set.shards().tables().get(place) {
            put_table(alloc, &mut out, name, shards.as_slice())?;
        }
    }
    Ok(out)
}

/// The text of a program as it is.
fn program_text(
    alloc: Global,
    set: &ChainSet,
    name: &Name,
    program: &Program,
) -> Result<Vec<u8>, Memory> {
    let mut out = Vec::new(alloc);
    let tables = set.tables().as_slice();
    put_head(alloc, &mut out, name.as_bytes(), program, None)?;
    for hop in 0..program.hops.len() {
        put_hop(alloc, &mut out, tables, program, hop, &Kept::All)?;
    }
    put_end(&mut out)?;
    Ok(out)
}

impl Source {
    /// The parts of the text of the set.
    pub(crate) fn new(alloc: Global, set: &ChainSet) -> Result<Source, Memory> {
        let mut programs = Vec::new(alloc);
        for (name, program) in set.programs() {
            programs.push(program_text(alloc, set, name, program)?)?;
        }
        Ok(Source {
            version: set.version(),
            tables: tables_text(alloc, set)?,
            programs,
        })
    }

    /// The first line of the text that the changes make.
    fn version_line(&self, first: &Trial, second: Option<&Trial>) -> &'static [u8] {
        let is_second = second.is_some_and(|trial| trial.is_second);
        match self.version {
            Version::One if first.is_second || is_second => b"lynx 2\n",
            Version::One => b"lynx 1\n",
            Version::Two => b"lynx 2\n",
        }
    }

    /// The text of the set with one change, or with two.
    pub(crate) fn changed(
        &self,
        alloc: Global,
        first: &Trial,
        second: Option<&Trial>,
    ) -> Result<Vec<u8>, Memory> {
        let mut out = Vec::new(alloc);
        out.extend_from_slice(self.version_line(first, second))?;
        out.extend_from_slice(self.tables.as_slice())?;
        out.extend_from_slice(first.tables.as_slice())?;
        for (place, text) in self.programs.as_slice().iter().enumerate() {
            let patched = match ProgramId::new(place.min(255) as u8) {
                Some(program) => patched(first, second, program),
                None => None,
            };
            out.extend_from_slice(patched.unwrap_or(text.as_slice()))?;
        }
        Ok(out)
    }
}

/// What the text of the program becomes by one of the changes.
fn patched<'t>(
    first: &'t Trial,
    second: Option<&'t Trial>,
    program: ProgramId,
) -> Option<&'t [u8]> {
    match first.patch_of(program) {
        Some(text) => Some(text),
        None => second?.patch_of(program),
    }
}
