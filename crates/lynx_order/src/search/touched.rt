use lynx_foot::Touch;
use lynx_names::TableId;

/// A touch of a chain. Chains have the numbers of their places among those that began.
#[derive(Clone, Copy, Debug)]
pub(crate) struct ChainTouch {
    pub touch: Touch,
    pub chain: usize,
    /// Where the entry of the touching hop stands in the list.
    pub place: usize,
}

impl ChainTouch {
    /// The table and the key that are touched.
    pub(crate) fn cell(&self) -> (TableId, u64) {
        (self.touch.table, self.touch.key)
    }
}
