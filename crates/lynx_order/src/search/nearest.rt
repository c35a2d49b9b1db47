//! For each chain that is left the first of those that are left and precede it.
use crate::search::touched::ChainTouch;
use lynx_foot::Kind;
use lynx_names::Memory;
use std::alloc::Global;

/// A chain that precedes another, with the places of the entries that conflict: its own, and that
/// of the other.
#[derive(Clone, Copy)]
pub(crate) struct Predecessor {
    pub chain: usize,
    pub own: usize,
    pub next: usize,
}

/// The first two chains that touched a cell in one way, each with the place of an entry.
#[derive(Clone, Copy)]
struct FirstTwo {
    first: Option<(usize, usize)>,
    second: Option<(usize, usize)>,
}

impl FirstTwo {
    fn none() -> FirstTwo {
        FirstTwo {
            first: None,
            second: None,
        }
    }

    fn add(&mut self, chain: usize, place: usize) {
        match (self.first, self.second) {
            (None, _) => self.first = Some((chain, place)),
            (Some((first, _)), _) if chain == first => {}
            (Some((first, _)), _) if chain < first => {
                self.second = self.first;
                self.first = Some((chain, place));
            }
            (_, Some((second, _))) if second <= chain => {}
            _ => self.second = Some((chain, place)),
        }
    }

    /// The first that is another chain.
    fn other_than(&self, chain: usize) -> Option<(usize, usize)> {
        match self.first {
            Some((first, _)) if first == chain => self.second,
            found => found,
        }
    }
}

/// The first chains that touched a cell in each way.
#[derive(Clone, Copy)]
struct Touchers {
    getting: FirstTwo,
    setting: FirstTwo,
    adding: FirstTwo,
    raising: FirstTwo,
}

impl Touchers {
    fn none() -> Touchers {
        Touchers {
            getting: FirstTwo::none(),
            setting: FirstTwo::none(),
            adding: FirstTwo::none(),
            raising: FirstTwo::none(),
        }
    }

    fn add(&mut self, touch: &ChainTouch) {
        let touchers = match touch.touch.kind {
            Kind::Getting => &mut self.getting,
            Kind::Setting => &mut self.setting,
            Kind::Adding => &mut self.adding,
            Kind::Raising => &mut self.raising,
        };
        touchers.add(touch.chain, touch.place);
    }

    /// The first of another chain whose way doesn't commute with the touch.
    fn before(&self, touch: &ChainTouch) -> Option<(usize, usize)> {
        let ways = [
            (Kind::Getting, self.getting),
            (Kind::Setting, self.setting),
            (Kind::Adding, self.adding),
            (Kind::Raising, self.raising),
        ];
        let mut found: Option<(usize, usize)> = None;
        for (kind, touchers) in &ways {
            if !kind.commutes(touch.touch.kind) {
                found = first_of(found, touchers.other_than(touch.chain));
            }
        }
        found
    }
}

/// The one with the first chain.
fn first_of(left: Option<(usize, usize)>, right: Option<(usize, usize)>) -> Option<(usize, usize)> {
    match (left, right) {
        (Some((one, _)), Some((other, _))) if other < one => right,
        (None, right) => right,
        (left, _) => left,
    }
}

/// For each chain its first predecessor as far as it is known.
fn note(found: &mut [Option<Predecessor>], touch: &ChainTouch, before: Option<(usize, usize)>) {
    let Some((chain, own)) = before else {
        return;
    };
    if let Some(slot) = found.get_mut(touch.chain) {
        if slot.is_none_or(|known| chain < known.chain) {
            *slot = Some(Predecessor {
                chain,
                own,
                next: touch.place,
            });
        }
    }
}

/// For each chain the first of those that are left and precede it. The touches are in order of
/// their cells, those of one cell in order of the list.
pub(crate) fn predecessors(
    alloc: Global,
    touches: &[ChainTouch],
    is_left: &[bool],
) -> Result<Vec<Option<Predecessor>>, Memory> {
    let mut found = vec![in alloc; None; is_left.len()]?;
    let mut touchers = Touchers::none();
    let mut cell = None;
    for touch in touches {
        if cell != Some(touch.cell()) {
            touchers = Touchers::none();
            cell = Some(touch.cell());
        }
        note(&mut found, touch, touchers.before(touch));
        if is_left.get(touch.chain) == Some(&true) {
            touchers.add(touch);
        }
    }
    Ok(found)
}
