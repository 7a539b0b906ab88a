//! The definitions that every answer of the engine is proved against, and their laws; the order and the page of
//! matches.
#![tactic(auto)]

mod bounds;
mod combining;
mod counts;
mod covers;
mod documents;
mod facets;
mod joined;
mod order;
mod page;
mod positions;
mod settled;

pub use bounds::{matches_within_static, score_within_ceil, static_within_live, weights_fit};
pub use combining::{
    first_and_others, scores_in_any_order, scores_in_pieces, scores_that_are_there,
};
pub use counts::{counts_are_there, counts_in_order};
pub use covers::{covers_follow, sides_cover, two_sides};
pub use documents::{slots_of_schema, terms_of_mentions};
pub use facets::{compare_facets, facets_add_up, one_list_of_facets, sort_facets};
pub use joined::{matches_within_parts, parts_are_whole, score_within_parts};
pub use order::{one_order, place_never_worse, sort_best_first};
pub use page::{kept_by_keys, kept_of_front, kept_of_key, slice};
pub use positions::near_is_a_window;
pub use settled::{settled_is_least, sharp_is_least};
