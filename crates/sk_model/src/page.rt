//! The asked page, and laws of the matches that are kept.
ghost use Rattle.std.specs.Prelude.{◌≡◌, ◌≤◌, ◌+◌, ℕ, List, length, take, drop, filter, bytes_eq, Option, Some};
ghost use Rattle.sk_base.specs.declared.find.Collapse.{Collapse};
ghost use Rattle.sk_base.specs.declared.rank.Rank.{Rank};
ghost use Rattle.sk_base.specs.declared.rank.Order.{Order};
ghost use Rattle.sk_model.specs.Page.{best_first, kept, count_key, dropped, slice};
ghost use Rattle.sk_model.specs.Laws.{kept_number, kept_first};

use sk_base::Rank;

/// The asked page of ordered matches, none where it begins behind the last.
pub fn slice(ranks: &[Rank], first: u32, size: u32) -> &[Rank]
    ensures { result.now ≡ slice first size ranks.now }
{
    let rest = &ranks[ranks.len().min(first as usize)..];
    &rest[..rest.len().min(size as usize)]
}

/// Laws: under collapsing all matches of the empty key are kept, and of each other key as many as there are, or the
/// most that may be kept. So how many are kept hangs on how often each key occurs, and neither on weights nor on the
/// order.
pub fn kept_by_keys()
    ensures each { (order : Order) (collapse : Collapse) (key : Rank → List ℕ) (k : List ℕ) (ranks : List Rank)
        → count_key key k (kept order (Some collapse) key ranks) ≡ kept_number collapse.max k (count_key key k ranks) }
    ensures alike { (order other : Order) (collapse : Option Collapse) (key : Rank → List ℕ) (ranks more : List Rank)
        → ((k : List ℕ) → count_key key k ranks ≡ count_key key k more)
        → length (kept order collapse key ranks) ≡ length (kept other collapse key more) }
{}

/// Laws: of the first matches no more are kept than of all, and of all no more than of the first and all the others. Of
/// no key fewer are dropped of all than of the first.
pub fn kept_of_front()
    ensures fewer { (order : Order) (collapse : Option Collapse) (key : Rank → List ℕ) (n : ℕ) (ranks : List Rank)
        → length (kept order collapse key (take n ranks)) ≤ length (kept order collapse key ranks) }
    ensures others { (order : Order) (collapse : Option Collapse) (key : Rank → List ℕ) (n : ℕ) (ranks : List Rank)
        → length (kept order collapse key ranks) ≤ length (kept order collapse key (take n ranks)) + length (drop n ranks) }
    ensures dropped { (order : Order) (collapse : Option Collapse) (key : Rank → List ℕ) (k : List ℕ) (n : ℕ) (ranks : List Rank)
        → dropped order collapse key k (take n ranks) ≤ dropped order collapse key k ranks }
{}

/// A law: of a key the kept matches are the first of its best, as many as may be; of the empty key all.
pub fn kept_of_key()
    ensures { (order : Order) (collapse : Collapse) (key : Rank → List ℕ) (k : List ℕ) (ranks : List Rank)
        → filter (λ x. bytes_eq (key x) k) (kept order (Some collapse) key ranks)
        ≡ kept_first collapse.max k (filter (λ x. bytes_eq (key x) k) (best_first order ranks)) }
{}
