//! A counter of the readings of index entries. It takes no bytes and no time.
#![tactic(auto)]

mod steps;

pub use steps::Steps;
