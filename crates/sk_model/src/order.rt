//! The order of matches.
ghost use Rattle.std.specs.Prelude.{◌≡◌, ◌≢◌, ◌<◌, ◌++◌, ℕ, false, List, length, get_or, AllPairs, IsPermutation};
ghost use Rattle.std.specs.List.Sorted.{IsSortedBy};
ghost use Rattle.sk_base.specs.declared.rank.Rank.{Rank};
ghost use Rattle.sk_base.specs.declared.rank.Order.{Order};
ghost use Rattle.sk_base.specs.Before.{is_before};
ghost use Rattle.sk_model.specs.Page.{best_first};

use sk_base::{Order, Rank};

/// The best first. It takes no memory.
pub fn sort_best_first(ranks: &mut [Rank], order: &Order)
    requires { AllPairs (λ x y. x.id ≢ y.id) ranks.old }
    ensures { ranks.new ≡ best_first order.now ranks.old }
{
    ranks.sort_unstable_by(|a, b| a.compare(b, order));
}

/// A law: there is one order of a list of matches of different ids, so whatever sorts them gives `best_first`.
pub fn one_order()
    ensures { (order : Order) (ranks sorted : List Rank) → AllPairs (λ x y. x.id ≢ y.id) ranks
        → IsPermutation ranks sorted → IsSortedBy (is_before order) sorted → sorted ≡ best_first order ranks }
{}

/// A law: while matches are added, what stands at a place of the ordered list gets no worse. So the weight that a match
/// needs in order to enter a page never falls.
pub fn place_never_worse()
    ensures { (order : Order) (added ranks : List Rank) (k : ℕ) (d : Rank) → k < length ranks
        → is_before order (get_or (best_first order ranks) k d) (get_or (best_first order (added ++ ranks)) k d) ≡ false }
{}
