//! Which hops may conflict, and the keys that are then equal.
use crate::cycles::budget::Budget;
use crate::cycles::facts::Facts;
use crate::cycles::program_facts::ProgramFacts;
use lynx_names::Memory;
use lynx_set::Key;
use std::alloc::Global;

/// How many pairs of joints are compared while they are collected, at most.
const MAX_LOOKS: u64 = 20_000_000;

/// Two hops at one server that conflict where two keys are equal: a chain is left by the one, and
/// another is entered by the other.
#[derive(Clone, Copy)]
pub(crate) struct Joint {
    pub left_hop: usize,
    pub left_key: Key,
    /// The program that is entered.
    pub program: usize,
    pub hop: usize,
    pub key: Key,
}

impl Joint {
    /// Whether it leaves no later, enters no earlier, and asks for no other keys.
    fn asks_less(&self, other: &Joint) -> bool {
        self.left_hop <= other.left_hop
            && self.hop >= other.hop
            && self.left_key == other.left_key
            && self.key == other.key
    }
}

/// The joints by which each program is left, and how many lead from one program to another.
#[derive(Drop)]
pub(crate) struct Joints {
    by_program: Vec<Vec<Joint>>,
    /// By the program that is entered last, and then by the one that is left first.
    distances: Vec<Vec<Option<usize>>>,
}

impl Joints {
    pub(crate) fn of(alloc: Global, facts: &Facts<'_>) -> Result<Joints, Memory> {
        let mut by_program = Vec::new(alloc);
        let mut looks = Budget::new(MAX_LOOKS);
        for left in facts.programs.iter() {
            let mut joints = Vec::new(alloc);
            for right in facts.programs.iter() {
                if left.can_begin() && right.can_begin() {
                    let mut found = joints_between(alloc, facts, left, right, &mut looks)?;
                    joints.append(&mut found)?;
                }
            }
            by_program.push(joints)?;
        }
        let mut distances = Vec::new(alloc);
        for to in 0..by_program.len() {
            distances.push(distances_to(alloc, by_program.as_slice(), to)?)?;
        }
        Ok(Joints {
            by_program,
            distances,
        })
    }

    /// How many joints lead from the one program to the other, at least. None where no joints do.
    pub(crate) fn distance(&self, from: usize, to: usize) -> Option<usize> {
        *self.distances.get(to)?.get(from)?
    }

    /// The joints by which the program is left.
    pub(crate) fn of_program(&self, program: usize) -> &[Joint] {
        match self.by_program.get(program) {
            Some(joints) => joints.as_slice(),
            None => &[],
        }
    }
}

/// How many joints lead from each program to that one, at least.
fn distances_to(
    alloc: Global,
    by_program: &[Vec<Joint>],
    to: usize,
) -> Result<Vec<Option<usize>>, Memory> {
    let mut distances: Vec<Option<usize>> = vec![in alloc; None; by_program.len()]?;
    for distance in 1..=by_program.len() {
        let mut has_grown = false;
        for (program, joints) in by_program.iter().enumerate() {
            let leads = joints.iter().any(|joint| {
                distance == 1 && joint.program == to
                    || is_nearer(distances.as_slice(), joint.program, distance)
            });
            if let Some(slot) = distances.get_mut(program) {
                if leads && slot.is_none() {
                    *slot = Some(distance);
                    has_grown = true;
                }
            }
        }
        if !has_grown {
            break;
        }
    }
    Ok(distances)
}

fn is_nearer(distances: &[Option<usize>], program: usize, distance: usize) -> bool {
    match distances.get(program) {
        Some(Some(known)) => *known < distance,
        _ => false,
    }
}

/// The joints from the one program to the other, without those than which another asks less.
fn joints_between(
    alloc: Global,
    facts: &Facts<'_>,
    left: &ProgramFacts,
    right: &ProgramFacts,
    looks: &mut Budget,
) -> Result<Vec<Joint>, Memory> {
    let mut found = Vec::new(alloc);
    for (left_hop, server) in left.servers.iter().enumerate() {
        for (hop, other) in right.servers.iter().enumerate() {
            if *server == *other {
                add_joints(facts, left, left_hop, right, hop, &mut found, looks)?;
            }
        }
    }
    Ok(found)
}

/// Adds those of two hops at one server: their feet are of one cell, with some arguments, and don't
/// commute.
fn add_joints(
    facts: &Facts<'_>,
    left: &ProgramFacts,
    left_hop: usize,
    right: &ProgramFacts,
    hop: usize,
    found: &mut Vec<Joint>,
    looks: &mut Budget,
) -> Result<(), Memory> {
    for foot in left.feet_at(left_hop) {
        let numbers = left.numbers_of(&facts.pool, foot.key);
        for other in right.feet_at(hop) {
            if foot.table == other.table
                && !foot.kind.commutes(other.kind)
                && numbers & right.numbers_of(&facts.pool, other.key) != 0
            {
                let joint = Joint {
                    left_hop,
                    left_key: foot.key,
                    program: right.program.index(),
                    hop,
                    key: other.key,
                };
                add_joint(found, joint, looks)?;
            }
        }
    }
    Ok(())
}

/// Adds the joint where none asks less, in the place of those than which it asks less.
fn add_joint(found: &mut Vec<Joint>, joint: Joint, looks: &mut Budget) -> Result<(), Memory> {
    looks.take(found.len() as u64);
    if looks.is_spent() || found.iter().any(|other| other.asks_less(&joint)) {
        return Ok(());
    }
    found.retain(|other| !joint.asks_less(other));
    found.push(joint)?;
    Ok(())
}
