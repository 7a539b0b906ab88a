//! The place of a match among others.
ghost use Rattle.std.specs.Prelude.{◌≡◌, ℕ};
ghost use Rattle.std.specs.Cmp.{IsTotalOrder};
ghost use Rattle.std.specs.Ordering.{nat_cmp};
ghost use Rattle.std.specs.Cmp.Lexicographic.{slice_cmp};
ghost use Rattle.std.specs.declared.cmp.Ordering.TheVariants.{Equal};
ghost use Rattle.sk_base.specs.Before.{rank_cmp, is_before, value_cmp};

use crate::{Bytes, DocId, Weight};
use std::cmp::Ordering;

/// What decides the place of a match.
#[derive(Debug, Drop)]
pub struct Rank {
    pub weight: Weight,
    /// The value in the slot that the order reads, empty where there is none.
    pub value: Bytes,
    pub id: DocId,
}

/// The slot whose values decide, and whether the greater come first.
#[derive(Clone, Copy, Debug, PartialEq, Eq)]
pub struct SortKey {
    pub slot: u32,
    pub reverse: bool,
}

/// The order of matches. The ids decide last.
#[derive(Clone, Copy, Debug, PartialEq, Eq)]
pub struct Order {
    pub by: OrderBy,
    /// Whether the greater ids come first, and not the lower.
    pub falling: bool,
}

/// What decides before the ids.
#[derive(Clone, Copy, Debug, PartialEq, Eq)]
pub enum OrderBy {
    /// The heavier first.
    Relevance,
    /// By value.
    Value(SortKey),
    /// By value, and of equal values the heavier first.
    ValueThenRelevance(SortKey),
    /// The heavier first, and of equal weights by value.
    RelevanceThenValue(SortKey),
}

impl Rank {
    /// Whether this match comes before the other.
    pub fn better(&self, other: &Rank, order: &Order) -> bool
        ensures { result ≡ is_before order.now self.now other.now }
    {
        self.compare(other, order).is_lt()
    }

    /// How the two are ordered: the lesser is the better.
    pub fn compare(&self, other: &Rank, order: &Order) -> Ordering
        ensures { result ≡ rank_cmp order.now self.now other.now }
    {
        order.compare(self.weight, self.value.as_slice(), self.id, other)
    }
}

impl Order {
    /// How a match of this weight, value and id is ordered to another: the lesser is the better.
    pub fn compare(&self, weight: Weight, value: &[u8], id: DocId, other: &Rank) -> Ordering
        ensures { result ≡ rank_cmp self.now (record { weight = weight; value = value.now; id = id }) other.now }
    {
        let weights = other.weight.cmp(&weight);
        let ids = if self.falling {
            other.id.cmp(&id)
        } else {
            id.cmp(&other.id)
        };
        match &self.by {
            OrderBy::Relevance => weights.then(ids),
            OrderBy::Value(key) => key.compare(value, other.value.as_slice()).then(ids),
            OrderBy::ValueThenRelevance(key) => key
                .compare(value, other.value.as_slice())
                .then(weights.then(ids)),
            OrderBy::RelevanceThenValue(key) => weights.then(
                key.compare(value, other.value.as_slice()).then(ids),
            ),
        }
    }
}

impl SortKey {
    fn compare(&self, value: &[u8], other: &[u8]) -> Ordering
        ensures { result ≡ value_cmp self.now value.now other.now }
    {
        if self.reverse {
            other.cmp(value)
        } else {
            value.cmp(other)
        }
    }
}

/// Laws: each order of matches is total, and no two documents tie.
pub fn total_order()
    ensures total { (order : Order) → IsTotalOrder (rank_cmp order) }
    ensures no_ties { (order : Order) (x y : Rank) → rank_cmp order x y ≡ Equal → x.id ≡ y.id }
{}
