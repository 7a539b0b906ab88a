//! A line, and why lines stop.

/// The greatest number of bytes of a line, without its end.
pub const MAX_LINE: usize = 1_048_576;

/// A line: its bytes without the end, or that it has more than `MAX_LINE` of them.
#[derive(Clone, Copy, Debug, PartialEq, Eq)]
pub enum Line<'a> {
    Whole(&'a [u8]),
    TooLong,
}

/// Why no more lines are read.
#[derive(Clone, Copy, Debug, PartialEq, Eq)]
pub enum LineStop {
    /// The source failed.
    Failed,
    /// As many bytes were taken as the limit allows, and no line's end is among those that are left.
    TooMuch,
}
