//! Some of the programs of a set, and some of its tables. None of it takes memory.
ghost use Rattle.std.specs.Prelude.{◌≡◌, Some, true, slice_get, slice_set};

use lynx_names::limits::{MAX_PROGRAMS, MAX_TABLES};
use lynx_names::{ProgramId, TableId};

const PROGRAMS: usize = MAX_PROGRAMS as usize;

const TABLES: usize = MAX_TABLES as usize;

/// Some of the programs of a set.
#[derive(Clone, Copy, Debug, PartialEq, Eq)]
pub struct ProgramMarks {
    marks: [bool; PROGRAMS],
}

impl ProgramMarks {
    /// No program.
    pub fn new() -> ProgramMarks {
        ProgramMarks {
            marks: [false; PROGRAMS],
        }
    }

    /// Whether the program is one of them.
    pub fn has(&self, program: ProgramId) -> bool
        ensures { slice_get self.now.marks program ≡ Some result }
    {
        self.marks[program.index()]
    }

    /// Adds the program, if it isn't there.
    pub fn add(&mut self, program: ProgramId)
        ensures { self.new.marks ≡ slice_set self.old.marks program true }
    {
        self.marks[program.index()] = true;
    }

    /// These, and all of the others.
    pub(crate) fn with_all(&self, others: &ProgramMarks) -> ProgramMarks {
        let mut all = *self;
        for number in 0..MAX_PROGRAMS {
            if let Some(program) = ProgramId::new(number) {
                if others.has(program) {
                    all.add(program);
                }
            }
        }
        all
    }

    /// How many there are.
    pub fn len(&self) -> usize {
        self.marks.iter().filter(|mark| **mark).count()
    }

    /// Whether there is none.
    pub fn is_empty(&self) -> bool {
        self.len() == 0
    }
}

/// Some of the tables of a set.
#[derive(Clone, Copy, Debug, PartialEq, Eq)]
pub struct TableMarks {
    marks: [bool; TABLES],
}

impl TableMarks {
    /// No table.
    pub fn new() -> TableMarks {
        TableMarks {
            marks: [false; TABLES],
        }
    }

    /// Whether the table is one of them.
    pub fn has(&self, table: TableId) -> bool
        ensures { slice_get self.now.marks table ≡ Some result }
    {
        self.marks[table.index()]
    }

    /// Adds the table, if it isn't there.
    pub fn add(&mut self, table: TableId)
        ensures { self.new.marks ≡ slice_set self.old.marks table true }
    {
        self.marks[table.index()] = true;
    }

    /// How many there are.
    pub fn len(&self) -> usize {
        self.marks.iter().filter(|mark| **mark).count()
    }

    /// Whether there is none.
    pub fn is_empty(&self) -> bool {
        self.len() == 0
    }
}
