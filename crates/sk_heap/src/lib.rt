//! The best hits of those that were offered, and when one cannot be among them.
#![tactic(auto)]

mod heap;
mod hit;
mod laws;
mod sift;

pub use heap::ResultHeap;
pub use hit::Hit;
pub use laws::{
    best_of_all, falls_out, need_keeps_out, need_never_falls, order_is_kept, ranks_in_order,
};
