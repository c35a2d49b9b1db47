//! Changes that are tried, with what they make of the text of a set.
use crate::change::Change;
use lynx_names::{Memory, ProgramId};
use std::alloc::Global;

/// The text of a program, in place of the one that it had.
#[derive(Debug, Drop)]
pub(crate) struct Patch {
    pub program: ProgramId,
    pub text: Vec<u8>,
}

/// A change, and what it makes of the text of a set.
#[derive(Debug, Drop)]
pub(crate) struct Trial {
    pub change: Change,
    pub patches: Vec<Patch>,
    /// Tables that the text has besides.
    pub tables: Vec<u8>,
    /// Whether the text has to be of version 2.
    pub is_second: bool,
}

/// A change of one program that makes its text that.
pub(crate) fn trial_of(
    alloc: Global,
    change: Change,
    program: ProgramId,
    text: Vec<u8>,
) -> Result<Trial, Memory> {
    let mut patches = Vec::new(alloc);
    patches.push(Patch { program, text })?;
    Ok(Trial {
        change,
        patches,
        tables: Vec::new(alloc),
        is_second: false,
    })
}

/// What the text of the program becomes by one of these, None where it stays.
fn patch_among(patches: &[Patch], program: ProgramId) -> Option<&[u8]> {
    for patch in patches {
        if patch.program == program {
            return Some(patch.text.as_slice());
        }
    }
    None
}

impl Trial {
    /// What the text of the program becomes, None where it stays.
    pub(crate) fn patch_of(&self, program: ProgramId) -> Option<&[u8]> {
        patch_among(self.patches.as_slice(), program)
    }
}
