//! What is found where a line's end is sought.

/// Where the first line ends.
#[derive(Clone, Copy)]
pub(crate) enum LineEnd {
    /// At this place of what is held.
    At(usize),
    /// More than a line may have is held, and no end.
    Far,
    /// The source is at its end, and no line's end is held.
    Nowhere,
}

/// What the front of what is held is.
#[derive(Clone, Copy)]
pub(crate) enum Found {
    End,
    Whole(usize),
    TooLong,
}
