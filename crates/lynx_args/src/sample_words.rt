//! The words that ask for a random script.
use crate::words::{CommandText, HINTS_FLAG, Place, Reads, SET_FILE, Word};

/// The options of a random script.
pub(crate) const SEED: &str = "seed";

pub(crate) const BEGINS: &str = "begins";

pub(crate) const CYCLE: &str = "cycle";

pub(crate) const EFFORT: &str = "effort";

pub(crate) const SAMPLE: CommandText = CommandText {
    name: "sample",
    about: "Print a random script for a set of chain programs",
    after: "Chains begin, and messages are delivered, repeated, held up, lost and woken in some order, and servers opened\nagain; in the end no hop is owed. The same words give the same script.\nStatus 0, or 1 where --cycle finds none.\nExample: lynx sample payment.set --cycle | lynx run payment.set /dev/stdin",
    words: &[
        SET_FILE,
        Word {
            name: SEED,
            place: Place::Value("N", Reads::Number),
            help: "What the choices are drawn from, 0 if left out",
        },
        Word {
            name: BEGINS,
            place: Place::Value("N", Reads::Hundred),
            help: "Chains that begin at most, 1 to 100, 8 if left out",
        },
        Word {
            name: CYCLE,
            place: Place::Flag,
            help: "Make a script whose run ends with a cycle, or look for one among 1,000",
        },
        Word {
            name: EFFORT,
            place: Place::Value("N", Reads::Number),
            help: "Steps by which a cycle is searched before, 200000 if left out, which take a second at most",
        },
        HINTS_FLAG,
    ],
};
