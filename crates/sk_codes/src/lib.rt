//! Query trees told apart by codes, as a value that keeps them and has a model of its own wants. Definitions and laws of
//! them, and no code.
#![tactic(auto)]
