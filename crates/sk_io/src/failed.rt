//! The one failure of a source or a sink.

/// A source gave nothing, or a sink took nothing, because of a fault outside.
#[derive(Clone, Copy, Debug, PartialEq, Eq)]
pub struct Failed;
