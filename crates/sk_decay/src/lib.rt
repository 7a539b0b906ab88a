//! What two sides give together, where they meet, and what may stand for them under a need.
#![tactic(auto)]

mod change;
mod meeting;
mod rules;
mod sides;

pub use change::Change;
pub use meeting::{END, Head, Meeting, meeting_of};
pub use rules::{both_rule, filter_rule, max_rule, maybe_rule, not_rule, or_rule, rule, xor_rule};
pub use sides::{first_need, greatest_under, is_led, second_need, second_target, sides_are_paired};
