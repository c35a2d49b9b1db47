//! Programs that may be to blame.

ghost use Rattle.std.specs.Prelude.{◌≡◌};
ghost use Rattle.lynx_reasons.specs.Culprits.{is_of};

use lynx_names::ProgramId;

/// The programs, up to three, whose taking away makes an offending set accepted.
#[derive(Clone, Copy, Debug, PartialEq, Eq)]
pub enum Culprit {
    One(ProgramId),
    Two(ProgramId, ProgramId),
    Three(ProgramId, ProgramId, ProgramId),
}

impl Culprit {
    /// Whether the program is one of them.
    pub(crate) fn has(&self, program: ProgramId) -> bool
        ensures { result ≡ is_of self.now program }
    {
        match *self {
            Culprit::One(first) => first == program,
            Culprit::Two(first, second) => first == program || second == program,
            Culprit::Three(first, second, third) => {
                first == program || second == program || third == program
            }
        }
    }
}
