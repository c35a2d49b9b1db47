//! The search: circles of two chains, three, and so on, and runs for each.
use crate::cycles::budget::Budget;
use crate::cycles::circles::Circles;
use crate::cycles::draft::Draft;
use crate::cycles::facts::Facts;
use crate::cycles::joints::Joints;
use crate::cycles::playing::Play;
use crate::cycles::run::Run;
use crate::cycles::schedule::schedule;
use crate::cycles::sparing::spared;
use lynx_names::Memory;
use std::alloc::Global;

/// How many chains a circle has, at most: a mask of hops has a bit for each hop of so many.
const MOST_CHAINS: usize = 16;

/// How many circles of the same programs are tried.
const MOST_TRIES: u32 = 12;

/// How often a run is tried for a circle, each time with other arguments.
const ATTEMPTS: u64 = 4;

/// How many begins are tried in an attempt, and so how many chains a run has, at most.
const MOST_BEGINS: u64 = 255;

/// A run that ends with a cycle, None where none was found: by so many steps of the search for
/// circles, and half as many begins.
pub(crate) fn find(
    alloc: Global,
    facts: &Facts<'_>,
    joints: &Joints,
    effort: u64,
) -> Result<Option<Run>, Memory> {
    let mut steps = Budget::new(effort);
    let mut begins = Budget::new(effort / 2);
    for size in 2..=MOST_CHAINS {
        let mut circles = Circles::new(alloc, facts, joints, size)?;
        let mut tries = Tries {
            counts: Vec::new(alloc),
        };
        for _ in 0..u64::MAX {
            let Some(draft) = circles.next(alloc, &mut steps)? else {
                break;
            };
            if tries.count(&draft)? <= MOST_TRIES {
                if let Some(run) = try_circle(alloc, facts, &draft, &mut begins)? {
                    return Ok(Some(run));
                }
            }
        }
    }
    Ok(None)
}

/// A run that makes the circle.
fn try_circle(
    alloc: Global,
    facts: &Facts<'_>,
    draft: &Draft,
    begins: &mut Budget,
) -> Result<Option<Run>, Memory> {
    let Some(hops) = schedule(alloc, facts, draft)? else {
        return Ok(None);
    };
    for attempt in 0..ATTEMPTS {
        if begins.is_spent() {
            return Ok(None);
        }
        let mut of_attempt = Budget::new(MOST_BEGINS);
        let mut play = Play::new(alloc, facts, draft, attempt)?;
        let is_done = play.follow(alloc, hops.as_slice(), &mut of_attempt)?;
        begins.take(of_attempt.taken_of(MOST_BEGINS));
        if is_done {
            let Play { run, circle, .. } = play;
            return Ok(Some(spared(alloc, facts, run, circle.as_slice())?));
        }
    }
    Ok(None)
}

/// How many circles of which programs were tried.
#[derive(Drop)]
struct Tries {
    counts: Vec<(Vec<usize>, u32)>,
}

impl Tries {
    /// Counts the circle, and gives how many of its programs there were.
    fn count(&mut self, draft: &Draft) -> Result<u32, Memory> {
        for (chains, count) in self.counts.iter_mut() {
            if chains.as_slice() == draft.chains.as_slice() {
                *count = count.saturating_add(1);
                return Ok(*count);
            }
        }
        self.counts.push((draft.chains.clone()?, 1))?;
        Ok(1)
    }
}
