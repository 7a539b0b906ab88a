//! Which queries fit.
ghost use Rattle.std.specs.Prelude.{◌≡◌, ◌&&◌, nat_le, bytes_eq};
ghost use Rattle.std.specs.List.{list_all, list_any};
ghost use Rattle.sk_base.specs.Rooms.{room_behind};
ghost use Rattle.sk_query.specs.Trees.{query_view, queries_view};
ghost use Rattle.sk_query.specs.Fits.{fits_tree, are_given, are_different, is_window, is_factor, is_slot, product_of, has_parts, is_sound, are_sound, leaves_of, leaves_in, depth_of, depth_in};
ghost use Rattle.sk_base.specs.Terms.{is_given};

use crate::Query;
use sk_base::{MOST_LEAVES, Text};

/// How many queries stand one inside another at most.
const MOST_DEPTH: usize = 1_000;

impl Query {
    /// Whether the query keeps all conditions and limits (`fits_tree` in `specs/Fits.antt`), however it was made. The
    /// depth is looked at first, so that no look goes deeper than it may; the leaves next, so that few texts are
    /// compared with each other.
    pub fn fits(&self) -> bool
        ensures { result ≡ fits_tree (query_view self.now) }
    {
        is_within(self, MOST_DEPTH) && room_behind(self, MOST_LEAVES).is_some() && is_sound(self, 1)
    }
}

/// Whether at most so many queries stand one inside another.
#[cycle(is_within)]
#[tactic(auto, using(crate::proofs::CountLemmas::is_deep))]
fn is_within(query: &Query, most: usize) -> bool
    ensures { result ≡ nat_le (depth_of (query_view query.now)) most }
{
    let Some(inside) = most.checked_sub(1) else {
        return false;
    };
    match query {
        Query::Scale(_, part) => is_within(part, inside),
        Query::And(parts)
        | Query::Or(parts)
        | Query::Xor(parts)
        | Query::Max(parts)
        | Query::AndNot(parts)
        | Query::AndMaybe(parts)
        | Query::Filter(parts) => are_within(parts, inside),
        _ => true,
    }
}

#[cycle(is_within)]
#[tactic(auto, using(crate::proofs::CountLemmas::max_within))]
fn are_within(parts: &[Query], most: usize) -> bool
    ensures { result ≡ nat_le (depth_in (queries_view parts.now)) most }
{
    'parts: for part in parts {
        if !is_within(part, most) {
            return false;
        }
    }
    true
}

/// What is left of a room for leaves behind those of the query.
#[cycle(room_behind)]
fn room_behind(query: &Query, room: usize) -> Option<usize>
    ensures { result ≡ room_behind room (leaves_of (query_view query.now)) }
{
    match query {
        Query::Nothing => Some(room),
        Query::All => Some(room),
        Query::Term(_) => room.checked_sub(1),
        Query::Wildcard(_) => room.checked_sub(1),
        Query::And(parts)
        | Query::Or(parts)
        | Query::Xor(parts)
        | Query::Max(parts)
        | Query::AndNot(parts)
        | Query::AndMaybe(parts)
        | Query::Filter(parts) => room_behind_parts(parts, room),
        Query::Near(_, texts) => room.checked_sub(texts.as_slice().len()),
        Query::Phrase(_, texts) => room.checked_sub(texts.as_slice().len()),
        Query::Synonym(texts) => room.checked_sub(texts.as_slice().len()),
        Query::Scale(_, part) => room_behind(part, room),
        Query::Range(_, _, _) => room.checked_sub(1),
    }
}

#[cycle(room_behind)]
fn room_behind_parts(parts: &[Query], room: usize) -> Option<usize>
    ensures { result ≡ room_behind room (leaves_in (queries_view parts.now)) }
{
    let mut left = room;
    'parts: for part in parts {
        left = room_behind(part, left)?;
    }
    Some(left)
}

/// Whether each query in it keeps its conditions, where the factors above have this product.
#[cycle(is_sound)]
fn is_sound(query: &Query, above: u64) -> bool
    ensures { result ≡ is_sound above (query_view query.now) }
{
    match query {
        Query::Nothing => true,
        Query::All => true,
        Query::Term(term) => is_given(term),
        Query::Wildcard(prefix) => is_given(prefix),
        Query::And(parts)
        | Query::Or(parts)
        | Query::Xor(parts)
        | Query::Max(parts)
        | Query::AndNot(parts)
        | Query::AndMaybe(parts)
        | Query::Filter(parts) => are_sound(parts, above),
        Query::Near(window, texts) => is_window(*window as u64) && are_given(texts.as_slice()),
        Query::Phrase(window, texts) => is_window(*window as u64) && are_given(texts.as_slice()),
        Query::Synonym(texts) => { are_given(texts.as_slice()) && are_different(texts.as_slice()) }
        Query::Scale(factor, part) => match product(above, *factor) {
            Some(product) => is_sound(part, product),
            None => false,
        },
        Query::Range(slot, _, _) => is_slot(*slot as u64),
    }
}

/// At least one part, and each keeps its conditions.
#[cycle(is_sound)]
fn are_sound(parts: &[Query], above: u64) -> bool
    ensures { result ≡ has_parts (queries_view parts.now) && are_sound above (queries_view parts.now) }
{
    'parts: for part in parts {
        if !is_sound(part, above) {
            return false;
        }
    }
    !parts.is_empty()
}

/// The product of the factors, where neither the factor nor the product is too great.
fn product(above: u64, factor: u32) -> Option<u64>
    ensures { result ≡ product_of above factor }
{
    if !is_factor(factor as u64) {
        return None;
    }
    let product = above.checked_mul(factor as u64)?;
    if is_factor(product) {
        Some(product)
    } else {
        None
    }
}

/// Whether a window is one.
pub fn is_window(window: u64) -> bool
    ensures { result ≡ is_window window }
{
    window >= 1 && window <= 1_048_576
}

/// Whether a factor, or the product of those from the root down, is not too great.
pub fn is_factor(factor: u64) -> bool
    ensures { result ≡ is_factor factor }
{
    factor <= 65_536
}

/// Whether a slot is one.
pub fn is_slot(slot: u64) -> bool
    ensures { result ≡ is_slot slot }
{
    slot <= 255
}

fn is_given(text: &Text) -> bool
    ensures { result ≡ is_given text.now }
{
    !text.as_str().is_empty()
}

fn are_given(texts: &[Text]) -> bool
    ensures { result ≡ are_given texts.now }
{
    !texts.is_empty() && all_given(texts)
}

fn all_given(texts: &[Text]) -> bool
    ensures { result ≡ list_all is_given texts.now }
{
    texts.iter().all(|text| is_given(text))
}

fn are_different(texts: &[Text]) -> bool
    ensures { result ≡ are_different texts.now }
{
    'texts: for i in 0..texts.len() {
        if is_among(&texts[i], &texts[i + 1..]) {
            return false;
        }
    }
    true
}

fn is_among(text: &Text, others: &[Text]) -> bool
    ensures { result ≡ list_any (λ other. bytes_eq text.now other) others.now }
{
    others.iter().any(|other| text.as_str() == other.as_str())
}
