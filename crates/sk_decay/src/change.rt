//! What may stand for two sides.

/// What stands for two sides under a form from now on. Swap means that the second side leads.
#[derive(Clone, Copy, Debug, PartialEq, Eq)]
pub enum Change {
    Keep,
    /// No document.
    Nothing,
    /// One side alone.
    First,
    Second,
    /// An and_maybe of the sides.
    Maybe,
    MaybeSwap,
    /// An and of the sides.
    Both,
    /// An and_not of the sides.
    Not,
    NotSwap,
}
