ghost use Rattle.std.specs.Prelude.{◌≡◌, ◌≤◌, length, slice_index};
ghost use Rattle.lynx_names.specs.declared.limits.TheConstants.{MAX_ACTIONS, MAX_HOPS, MAX_PARAMETERS};
ghost use Rattle.lynx_set.specs.Intervals.{are_in_range, range_of};

use crate::action::Action;
use crate::interval::Interval;
use lynx_lex::Name;
use lynx_names::{Items, Memory, ServerId, TryCopy};
use std::alloc::Global;

/// A hop of a program: its server, and its actions in order.
#[derive(Debug, PartialEq, Eq, Drop)]
pub struct Hop {
    pub server: ServerId,
    pub actions: Items<Action>,
    ghost few_actions: { length actions ≤ MAX_ACTIONS },
}

impl TryCopy for Hop {
    fn copy(&self, alloc: Global) -> Result<Hop, Memory> {
        Ok(Hop {
            server: self.server,
            actions: self.actions.copy(alloc)?,
        })
    }
}

/// The interval in which a parameter's arguments lie, the parameter by its place.
#[derive(Clone, Copy, Debug, PartialEq, Eq)]
pub struct ParameterRange {
    pub parameter: u8,
    pub interval: Interval,
}

impl TryCopy for ParameterRange {
    fn copy(&self, _alloc: Global) -> Result<ParameterRange, Memory> {
        Ok(*self)
    }
}

/// The interval in which a parameter's arguments lie, None where they may be any number.
pub fn range_of(ranges: &[ParameterRange], parameter: u8) -> Option<Interval>
    ensures { result ≡ range_of ranges.now parameter }
{
    for range in ranges {
        if range.parameter == parameter {
            return Some(range.interval);
        }
    }
    None
}

/// Whether each argument of which there is a range lies in it. An argument that isn't there counts
/// as 0.
pub fn are_in_range(ranges: &[ParameterRange], args: &[u64]) -> bool
    ensures { result ≡ are_in_range ranges.now args.now }
{
    ranges.iter().all(|range| range.interval.holds(argument_at(args, range.parameter)))
}

fn argument_at(args: &[u64], parameter: u8) -> u64
    ensures { result ≡ slice_index args.now parameter }
{
    args.get(usize::from(parameter)).copied().unwrap_or(0)
}

/// A chain program without its name.
#[derive(Debug, PartialEq, Eq, Drop)]
pub struct Program {
    /// How many of the names are parameters.
    pub parameters: usize,
    /// The spellings of the parameters, and then of the bound names in the order of their lines.
    pub names: Items<Name>,
    /// The ranges of parameters, in order of the parameters, one for each at most. A parameter
    /// without one may be any number. Only a set of version 2 has ranges.
    pub ranges: Items<ParameterRange>,
    pub hops: Items<Hop>,
    ghost few_parameters: { parameters ≤ MAX_PARAMETERS },
    ghost few_hops: { length hops ≤ MAX_HOPS },
}

impl TryCopy for Program {
    fn copy(&self, alloc: Global) -> Result<Program, Memory> {
        Ok(Program {
            parameters: self.parameters,
            names: self.names.copy(alloc)?,
            ranges: self.ranges.copy(alloc)?,
            hops: self.hops.copy(alloc)?,
        })
    }
}
