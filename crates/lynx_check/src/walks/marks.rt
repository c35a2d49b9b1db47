//! Hops marked for what the visits of a walk so far did.
use crate::walks::row::Row;

/// Rows of hops: whether some visit was left by another hop than it was entered at, and whether
/// some visit was of a program of another origin.
#[derive(Clone, Copy)]
pub(crate) struct Marks {
    neither: Row,
    crossed: Row,
    abroad: Row,
    both: Row,
}

/// Each way in which the visits so far may have gone.
pub(crate) const WAYS: [(bool, bool); 4] = [
    (false, false),
    (true, false),
    (false, true),
    (true, true),
];

impl Marks {
    pub(crate) fn none() -> Marks {
        Marks {
            neither: Row::none(),
            crossed: Row::none(),
            abroad: Row::none(),
            both: Row::none(),
        }
    }

    pub(crate) fn at(&self, crossed: bool, abroad: bool) -> &Row {
        match (crossed, abroad) {
            (false, false) => &self.neither,
            (true, false) => &self.crossed,
            (false, true) => &self.abroad,
            (true, true) => &self.both,
        }
    }

    pub(crate) fn at_mut(&mut self, crossed: bool, abroad: bool) -> &mut Row {
        match (crossed, abroad) {
            (false, false) => &mut self.neither,
            (true, false) => &mut self.crossed,
            (false, true) => &mut self.abroad,
            (true, true) => &mut self.both,
        }
    }

    pub(crate) fn add(&mut self, more: &Marks) {
        for (crossed, abroad) in WAYS {
            self.at_mut(crossed, abroad).add(more.at(crossed, abroad));
        }
    }

    pub(crate) fn remove(&mut self, those: &Marks) {
        for (crossed, abroad) in WAYS {
            self.at_mut(crossed, abroad)
                .remove(those.at(crossed, abroad));
        }
    }

    pub(crate) fn is_empty(&self) -> bool {
        self.neither.is_empty()
            && self.crossed.is_empty()
            && self.abroad.is_empty()
            && self.both.is_empty()
    }
}
