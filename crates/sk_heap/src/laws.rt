//! What follows for a search that keeps its hits in a heap, and for those who read of it.
ghost use Rattle.std.specs.Prelude.{◌≡◌, ◌≢◌, ◌<◌, ◌≤◌, ◌==◌, ◌∷◌, ℕ, true, List, length, take, find, All, Some, IfSome};
ghost use Rattle.sk_base.specs.declared.rank.Order.{Order};
ghost use Rattle.sk_base.specs.declared.rank.Rank.{Rank};
ghost use Rattle.sk_base.specs.Before.{is_before};
ghost use Rattle.sk_model.specs.Page.{place, best_first};
ghost use Rattle.sk_heap.specs.declared.hit.Hit.{Hit};
ghost use Rattle.sk_heap.specs.Held.{Held, placed_hit, best_hits, ranks_of, need_of, holds_for_any_id, offered, without_hit, NeverFalls, IsInOrder};

/// Laws: the ranks of hits in order are those ranks in order.
pub fn ranks_in_order()
    ensures best { (order : Order) (hits : List Hit) → ranks_of (best_hits order hits) ≡ best_first order (ranks_of hits) }
    ensures placed { (order : Order) (x : Hit) (hits : List Hit) → ranks_of (placed_hit order x hits) ≡ place order x.rank (ranks_of hits) }
{}

/// A law: a heap that holds the best of some hits holds the best of these and one more once that was offered.
pub fn best_of_all()
    ensures { (held : Held) (x : Hit) (all : List Hit) → held.hits ≡ take held.most (best_hits held.order all)
        → (offered x held).hits ≡ take held.most (best_hits held.order (x ∷ all)) }
{}

/// Laws: what a heap holds is in order after an offer, and after a removal.
pub fn order_is_kept()
    ensures offered { (held : Held) (x : Hit) → IsInOrder held → All (λ h. h.rank.id ≢ x.rank.id) held.hits → IsInOrder (offered x held) }
    ensures removed { (held : Held) (id : ℕ) → IsInOrder held → IsInOrder (without_hit id held) }
{}

/// Laws: the need never falls while hits are offered, nor while a hit takes the place of one that it comes before.
pub fn need_never_falls()
    ensures offered { (held : Held) (x : Hit) → IsInOrder held
        → NeverFalls (need_of held) (need_of (offered x held)) }
    ensures exchanged { (held : Held) (x : Hit) (id : ℕ) → IsInOrder held
        → IfSome (find (λ h. h.rank.id == id) held.hits) (λ y. is_before held.order x.rank y.rank ≡ true)
        → NeverFalls (need_of held) (need_of (offered x (without_hit id held))) }
{}

/// Laws: what weighs less than the need comes after all that are held, if its id is greater than theirs; in some orders
/// whatever its id.
pub fn need_keeps_out()
    ensures greater { (held : Held) (n : ℕ) (r : Rank) → IsInOrder held → need_of held ≡ Some n → r.weight < n
        → All (λ h. h.rank.id < r.id) held.hits → All (λ h. is_before held.order h.rank r ≡ true) held.hits }
    ensures any { (held : Held) (n : ℕ) (r : Rank) → IsInOrder held → need_of held ≡ Some n → r.weight < n
        → holds_for_any_id held.order.by held.order.falling ≡ true → All (λ h. is_before held.order h.rank r ≡ true) held.hits }
{}

/// A law: what comes after all that a full heap holds falls out.
pub fn falls_out()
    ensures { (held : Held) (x : Hit) → held.most ≡ length held.hits
        → All (λ h. is_before held.order h.rank x.rank ≡ true) held.hits → offered x held ≡ held }
{}
