//! Chains that help another to begin: they change a cell that its first hop reads.
use crate::cycles::budget::Budget;
use crate::cycles::facts::Facts;
use crate::cycles::run::Run;
use lynx_foot::Kind;
use lynx_hops::value::key_of;
use lynx_names::{Items, Memory, TryCopy, Values};
use lynx_set::Key;
use std::alloc::Global;

/// How many lists of arguments a helper is tried with.
const LISTS: usize = 8;

/// How deep helpers are helped.
const MOST_GOALS: usize = 4;

/// A program that changes a cell of that key where its own key is that.
#[derive(Clone, Copy)]
struct Helper {
    program: usize,
    own: Key,
    key: u64,
}

/// A begin that is wanted, and what may help it.
#[derive(Drop)]
struct Goal {
    program: usize,
    args: Values,
    helpers: Vec<Helper>,
    /// How many helpers were asked, each as often as there are lists.
    asked: usize,
}

/// Begins the program behind helping chains, the last of the run's chains. False where they don't
/// bring it about: the run then goes on from where they left it.
pub(crate) fn begin_with_help(
    alloc: Global,
    facts: &Facts<'_>,
    run: &mut Run,
    circle: &[usize],
    program: usize,
    args: &Values,
    begins: &mut Budget,
) -> Result<bool, Memory> {
    let mut goals = vec![in alloc; Goal::new(alloc, facts, program, args.copy(alloc)?)?]?;
    for _ in 0..u64::MAX {
        let Some(goal) = goals.last_mut() else {
            return Ok(false);
        };
        if begins.is_spent() {
            return Ok(false);
        }
        begins.take(1);
        if run.begin(alloc, facts, goal.program, &goal.args)?.is_done() {
            if goals.len() == 1 {
                return Ok(true);
            }
            run.run_others(alloc, facts, circle)?;
            let _ = goals.pop();
        } else {
            match next_goal(alloc, facts, &mut goals)? {
                Some(goal) => goals.push(goal)?,
                None => {
                    let _ = goals.pop();
                }
            }
        }
    }
    Ok(false)
}

/// The begin of the next helper of the last goal, of a program that no goal has. None where there
/// is no more, or it would be too deep.
fn next_goal(
    alloc: Global,
    facts: &Facts<'_>,
    goals: &mut Vec<Goal>,
) -> Result<Option<Goal>, Memory> {
    if goals.len() >= MOST_GOALS {
        return Ok(None);
    }
    for _ in 0..u64::MAX {
        let Some((helper, draw)) = goals.last_mut().and_then(|goal| goal.ask()) else {
            return Ok(None);
        };
        if goals.iter().all(|goal| goal.program != helper.program) {
            let args = helper.args(alloc, facts, draw)?;
            return Ok(Some(Goal::new(alloc, facts, helper.program, args)?));
        }
    }
    Ok(None)
}

impl Goal {
    fn new(alloc: Global, facts: &Facts<'_>, program: usize, args: Values) -> Result<Goal, Memory> {
        let helpers = helpers_of(alloc, facts, program, &args)?;
        Ok(Goal {
            program,
            args,
            helpers,
            asked: 0,
        })
    }

    /// The next helper, and for which time it is asked.
    fn ask(&mut self) -> Option<(Helper, usize)> {
        let count = self.helpers.len().max(1);
        let draw = self.asked / count;
        if draw >= LISTS {
            return None;
        }
        let helper = self.helpers.get(self.asked % count).copied()?;
        self.asked = self.asked.saturating_add(1);
        Some((helper, draw))
    }
}

/// The programs that change a cell which the program's first hop reads with these arguments.
fn helpers_of(
    alloc: Global,
    facts: &Facts<'_>,
    program: usize,
    args: &Values,
) -> Result<Vec<Helper>, Memory> {
    let mut helpers = Vec::new(alloc);
    let Some(helped) = facts.program(program) else {
        return Ok(helpers);
    };
    for read in helped.feet_at(0) {
        if read.kind == Kind::Getting {
            let key = key_of(args.as_slice(), read.key);
            let able = facts.programs.iter().enumerate();
            for (program, found) in able.filter(|(_, found)| found.can_begin()) {
                for foot in found.feet.iter().flatten() {
                    let numbers = found.numbers_of(&facts.pool, foot.key);
                    if foot.table == read.table
                        && foot.kind != Kind::Getting
                        && numbers & facts.pool.mask_of(key) != 0
                    {
                        helpers.push(Helper {
                            program,
                            own: foot.key,
                            key,
                        })?;
                    }
                }
            }
        }
    }
    Ok(helpers)
}

impl Helper {
    /// Arguments with which it helps.
    fn args(&self, alloc: Global, facts: &Facts<'_>, draw: usize) -> Result<Values, Memory> {
        let mut args = Vec::new(alloc);
        if let Some(program) = facts.program(self.program) {
            for (place, numbers) in program.arguments.iter().enumerate() {
                let is_own = matches!(self.own, Key::Param(own) if usize::from(own) == place);
                args.push(if is_own {
                    self.key
                } else {
                    facts.pool.pick(*numbers, draw as u64, place)
                })?;
            }
        }
        Ok(Items::from_vec(args))
    }
}
