//! Laws of counts.
ghost use Rattle.std.specs.Prelude.{◌≡◌, ◌≤◌, ℕ, true, List, length};
ghost use Rattle.sk_base.specs.declared.find.Paging.{Paging};
ghost use Rattle.sk_base.specs.declared.rank.Rank.{Rank};
ghost use Rattle.sk_base.specs.Numbers.{Docs};
ghost use Rattle.sk_query.specs.Trees.{Tree};
ghost use Rattle.sk_query.specs.Fits.{is_sound};
ghost use Rattle.sk_model.specs.Bounds.{static_count};
ghost use Rattle.sk_model.specs.Counts.{Counts, CollapseCount, kept_by, dropped_by};
ghost use Rattle.sk_model.specs.Matches.{found_by};

/// A law: the lower bound on the number of matches is not above the upper one.
pub fn counts_in_order()
    ensures { (paging : Paging) (docs : Docs) (ranks : List Rank) (greatest static lower upper : ℕ)
        → Counts paging docs ranks greatest static lower upper → lower ≤ upper }
{}

/// Laws: whatever a sound query finds, the true count may stand as both bounds, and what is dropped of a key as its
/// collapse count. So no find is without bounds that it may have.
pub fn counts_are_there()
    ensures both { (query : Tree) (paging : Paging) (above greatest : ℕ) (docs : Docs) → is_sound above query ≡ true
        → let ranks = found_by query paging docs in let kept = length (kept_by paging docs ranks) in
        Counts paging docs ranks greatest (static_count query docs) kept kept }
    ensures collapsed { (paging : Paging) (docs : Docs) (ranks : List Rank) (k : List ℕ)
        → CollapseCount paging docs ranks k (dropped_by paging docs k ranks) }
{}
