//! Where lists stand.

/// Where a list stands that has ended: behind all ids.
pub const END: u64 = 1 << 32;

/// So many lists can be kept together.
pub const MOST_LISTS: usize = u32::MAX as usize;

/// Where a list stands: the id, what it weighs there, and a weight that none of its entries is above.
#[derive(Clone, Copy, Debug)]
pub struct Mark {
    pub head: u64,
    pub weight: u32,
    pub greatest: u32,
}

/// The first id at which lists stand, what they weigh there together, and one of them.
#[derive(Clone, Copy, Debug)]
pub struct First {
    pub head: u64,
    pub weight: u64,
    pub which: usize,
}
