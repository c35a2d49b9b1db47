//! Circles of chains, found one after another.
//!
//! Each chain of a circle is left by a hop that conflicts with the hop by which the next is
//! entered, and is done before it. So some chain is left by an earlier hop than it is entered by:
//! were each left no earlier, hops would come before themselves. The search begins at such a chain.
use crate::cycles::budget::Budget;
use crate::cycles::draft::Draft;
use crate::cycles::facts::Facts;
use crate::cycles::joints::{Joint, Joints};
use crate::cycles::schedule::schedule;
use lynx_names::Memory;
use std::alloc::Global;

/// The search for circles of so many chains.
#[derive(Drop)]
pub(crate) struct Circles<'a> {
    facts: &'a Facts<'a>,
    joints: &'a Joints,
    size: usize,
    /// What is to be looked at, the last first.
    drafts: Vec<Draft>,
}

impl<'a> Circles<'a> {
    pub(crate) fn new(
        alloc: Global,
        facts: &'a Facts<'a>,
        joints: &'a Joints,
        size: usize,
    ) -> Result<Circles<'a>, Memory> {
        let mut drafts = Vec::new(alloc);
        for (program, found) in facts.programs.iter().enumerate().rev() {
            for entered in (1..found.hops()).rev() {
                drafts.push(Draft::new(alloc, program, entered)?)?;
            }
        }
        Ok(Circles {
            facts,
            joints,
            size,
            drafts,
        })
    }

    /// The next circle. None where there is no more, or no step is left.
    pub(crate) fn next(
        &mut self,
        alloc: Global,
        steps: &mut Budget,
    ) -> Result<Option<Draft>, Memory> {
        for _ in 0..u64::MAX {
            if steps.is_spent() {
                return Ok(None);
            }
            let Some(draft) = self.drafts.pop() else {
                return Ok(None);
            };
            if draft.is_closed() {
                return Ok(Some(draft));
            }
            for joint in self.joints.of_program(draft.last()).iter().rev() {
                if draft.chains.len() > 1 || joint.left_hop < draft.entered {
                    steps.take(draft.cost());
                    self.follow(alloc, &draft, joint)?;
                }
            }
        }
        Ok(None)
    }

    /// Adds what comes of leaving the last chain by the joint: a circle, or a draft with a chain
    /// more, begun at any place among those of its origin, where the first can still be reached.
    fn follow(&mut self, alloc: Global, draft: &Draft, joint: &Joint) -> Result<(), Memory> {
        if draft.chains.len() >= self.size {
            if joint.program == draft.program(0) && joint.hop == draft.entered {
                self.add(alloc, draft.closed(joint)?)?;
            }
            return Ok(());
        }
        let distance = self.joints.distance(joint.program, draft.program(0));
        let left = self.size.saturating_sub(draft.chains.len());
        if distance.is_none_or(|distance| distance > left) {
            return Ok(());
        }
        let origin = self.facts.origin(joint.program);
        for (place, chain) in draft.begins.iter().enumerate() {
            if self.facts.origin(draft.program(*chain)) == origin {
                self.add(alloc, draft.longer(joint, place)?)?;
            }
        }
        self.add(alloc, draft.longer(joint, draft.begins.len())?)
    }

    /// Adds the draft where a number is left for its keys, and its hops have an order.
    fn add(&mut self, alloc: Global, draft: Draft) -> Result<(), Memory> {
        if draft.has_numbers(alloc, self.facts)? && schedule(alloc, self.facts, &draft)?.is_some() {
            self.drafts.push(draft)?;
        }
        Ok(())
    }
}
