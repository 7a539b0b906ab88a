//! The nodes of a tree, which walk through the lists together, and pass over what is not wanted.
#![tactic(auto)]

mod begun;
mod leaf;
mod many;
mod merge;
mod moves;
mod node;
mod or_many;
mod order;
mod proximity;
mod range_node;
mod repeats;
mod skip;
mod top;
mod wdfs;
mod xor_many;

pub use begun::{
    one_side, or_many_of, pair_of, positional_of, synonym_over, with_more, xor_many_of,
};
pub use leaf::{Leaf, ListOf, list_length};
pub use merge::{Merge, mark_of, merge_of};
pub use moves::reach;
pub use node::Node;
pub use proximity::{Proximity, ProximityKind};
pub use range_node::{RangeNode, skip_behind};
pub use sk_buckets::{MOST_LISTS, Mark};
pub use top::{END, Top};
pub use wdfs::Wdfs;
