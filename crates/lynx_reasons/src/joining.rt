//! Programs by groups, edge by edge.

ghost use Rattle.std.specs.Prelude.{◌≡◌, ◌==◌, ◌&&◌, IfOk, OnOk, length, map, not, option_map, slice_get};
ghost use Rattle.std.specs.List.{list_any, range_with_len};
ghost use Rattle.lynx_graph.specs.Tests.{same_server};
ghost use Rattle.lynx_set.specs.Set.{Set};
ghost use Rattle.lynx_reasons.specs.declared.culprit.Culprit.{Culprit};
ghost use Rattle.lynx_reasons.specs.inner.Joinings.{AreJoined, IsEdgeLeft, is_mixed_by, is_abroad_of, led_by, noted, noted_at, single};

use lynx_graph::meeting::same_server;
use lynx_graph::{Edge, Place, program_of};
use lynx_names::{Memory, ServerId};
use lynx_set::ChainSet;
use std::alloc::Global;

/// A program: where it begins, the number of its group, and at which hops it meets others.
#[derive(Clone, Copy)]
struct Joined {
    origin: Option<ServerId>,
    group: usize,
    met: Option<usize>,
    is_met_twice: bool,
}

/// The programs of a set, as far as edges have joined them.
#[derive(Drop)]
pub(crate) struct Joining {
    programs: Vec<Joined>,
}

/// The program, as one of which that hop meets another.
fn noted(joined: Joined, hop: usize) -> Joined
    ensures { result ≡ noted hop joined }
{
    match joined.met {
        None => Joined {
            met: Some(hop),
            ..joined
        },
        Some(first) => Joined {
            is_met_twice: joined.is_met_twice || first != hop,
            ..joined
        },
    }
}

/// The program, in the one group where it was in the other.
fn led_by(joined: Joined, group: usize, other: usize) -> Joined
    ensures { result ≡ led_by group other joined }
{
    let group = if joined.group == other {
        group
    } else {
        joined.group
    };
    Joined { group, ..joined }
}

impl Joining {
    /// The programs of the set, each by itself.
    pub(crate) fn new(alloc: Global, set: &ChainSet) -> Result<Joining, Memory>
        ensures { IfOk result (λ joining. joining.programs.items
            ≡ map (single set.now) (range_with_len 0 (length set.now.programs))) }
    {
        let mut programs = Vec::new(alloc);
        for group in 0..set.programs().len() {
            programs.push(Joined {
                origin: set.origin(program_of(group)),
                group,
                met: None,
                is_met_twice: false,
            })?;
        }
        Ok(Joining { programs })
    }

    /// The number of the group of the hop's program.
    fn group_of(&self, place: Place) -> Option<usize>
        ensures { result ≡ option_map (λ joined. joined.group)
            (slice_get self.now.programs.items place.program) }
    {
        let joined = self.programs.get(place.program.index())?;
        Some(joined.group)
    }

    /// Notes that the hop meets another.
    fn note(&mut self, place: Place)
        ensures { self.new.programs.items ≡ noted_at place self.old.programs.items }
    {
        let number = place.program.index();
        if number < self.programs.len() {
            self.programs[number] = noted(self.programs[number], place.hop);
        }
    }

    /// Makes the one group part of the other.
    fn merge(&mut self, alloc: Global, group: usize, other: usize) -> Result<(), Memory>
        ensures { OnOk result (self.new.programs.items
            ≡ map (led_by group other) self.old.programs.items) }
    {
        let programs = self.programs.iter();
        self.programs = programs
            .map(|joined| led_by(*joined, group, other))
            .collect(alloc)?;
        Ok(())
    }

    /// Joins the programs of the edge.
    pub(crate) fn join(&mut self, alloc: Global, edge: &Edge) -> Result<(), Memory>
        ensures { (set : Set) (culprit : Culprit) → AreJoined set culprit self.old.programs.items
            → IsEdgeLeft set culprit edge.now
            → OnOk result (AreJoined set culprit self.new.programs.items) }
    {
        self.note(edge.left);
        self.note(edge.right);
        match (self.group_of(edge.left), self.group_of(edge.right)) {
            (Some(group), Some(other)) if group != other => self.merge(alloc, group, other),
            _ => Ok(()),
        }
    }

    /// Whether some program of the same group begins at another server.
    fn is_abroad(&self, joined: &Joined) -> bool
        ensures { result ≡ list_any (is_abroad_of joined.now) self.now.programs.items }
    {
        self.programs.iter().any(|other| {
            other.group == joined.group && !same_server(other.origin, joined.origin)
        })
    }

    /// Whether some group has programs of two origins, and one that meets others at two hops.
    pub(crate) fn has_mixed(&self) -> bool
        ensures { result ≡ list_any (is_mixed_by self.now.programs.items) self.now.programs.items }
    {
        let mut programs = self.programs.iter();
        programs.any(|joined| joined.is_met_twice && self.is_abroad(joined))
    }
}
