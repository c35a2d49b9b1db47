//! Room for an answer that is noted.
ghost use Rattle.std.specs.Prelude.{◌≡◌, ◌≤◌, [], length, vec_capacity};
ghost use Rattle.lynx_names.specs.declared.limits.TheConstants.{MAX_ACTIONS};
ghost use Rattle.lynx_entry.specs.Answers.{HasFewResults};

use crate::answer::Answer;
use lynx_names::limits::MAX_ACTIONS;
use lynx_names::{Memory, Values};
use std::alloc::Global;

/// Room for a copy of one answer, made before the answer is known: whoever has to note what a
/// server answers needs no memory once it has answered.
#[derive(Debug, Drop)]
pub struct AnswerRoom {
    results: Vec<u64>,
    ghost is_empty: { results.items ≡ [] },
    ghost is_wide: { MAX_ACTIONS ≤ vec_capacity results },
}

impl AnswerRoom {
    pub fn new(alloc: Global) -> Result<AnswerRoom, Memory> {
        let results = Vec::with_capacity(alloc, MAX_ACTIONS)?;
        Ok(AnswerRoom { results })
    }

    /// A copy of these values.
    fn copy_of_values(self, values: &[u64]) -> Values
        requires { length values.now ≤ MAX_ACTIONS }
        ensures { result ≡ values.now }
    {
        let mut results = self.results;
        for value in values {
            results.push_reserved(*value);
        }
        Values::from_vec(results)
    }

    /// A copy of the answer. Takes no memory; a server's answers have few results.
    #[tactic(auto, using(crate::proofs::OwnResults::own_results))]
    pub fn copy_of(self, answer: &Answer) -> Answer
        requires { HasFewResults answer.now }
        ensures { result ≡ answer.now }
    {
        answer.with_results(self.copy_of_values(answer.results()))
    }
}
