//! Tests of the libraries, a file for each: what no clause says of them.
#![tactic(auto)]

#[cfg(test)]
mod base;
#[cfg(test)]
mod io;
#[cfg(test)]
mod pieces;
#[cfg(test)]
mod steps;
#[cfg(test)]
mod text;
