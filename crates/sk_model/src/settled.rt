//! Laws of the points at which a page is settled, and of the sharper bound on steps.
ghost use Rattle.std.specs.Prelude.{◌≡◌, ◌≤◌, ◌<◌, ◌+◌, ℕ, List, length, AllPairs, Some};
ghost use Rattle.sk_base.specs.declared.find.Paging.{Paging};
ghost use Rattle.sk_base.specs.declared.rank.Rank.{Rank};
ghost use Rattle.sk_base.specs.Numbers.{Docs};
ghost use Rattle.sk_query.specs.Trees.{Tree};
ghost use Rattle.sk_model.specs.Allowance.{allowance};
ghost use Rattle.sk_model.specs.Counts.{wanted};
ghost use Rattle.sk_model.specs.Edits.{last_id};
ghost use Rattle.sk_model.specs.Matches.{found_by};
ghost use Rattle.sk_model.specs.Settled.{settled, settling_weight, seen_up_to, heavy_up_to};
ghost use Rattle.sk_model.specs.Sharp.{stop_number, rare_number, decay_number, sharp};

/// Laws: `settled` is the least id up to which there are as many matches as a find wants to see, and as many of at
/// least the weight (more than it where ids fall) as its page needs, where there are as many up to an id below the last
/// and the weight is not below the cutoff; below that it is 0. The matches stand by rising id.
pub fn settled_is_least()
    ensures least { (paging : Paging) (ranks : List Rank) (weight id : ℕ) → AllPairs (λ x y. x.id < y.id) ranks
        → wanted paging ≤ seen_up_to id ranks → paging.options.first + paging.options.size ≤ heavy_up_to (settling_weight paging weight) id ranks
        → settled paging ranks weight ≤ id }
    ensures seen { (paging : Paging) (ranks : List Rank) (weight : ℕ) → AllPairs (λ x y. x.id < y.id) ranks
        → settled paging ranks weight < last_id → paging.options.cutoff ≤ weight
        → wanted paging ≤ seen_up_to (settled paging ranks weight) ranks }
    ensures heavy { (paging : Paging) (ranks : List Rank) (weight : ℕ) → AllPairs (λ x y. x.id < y.id) ranks
        → settled paging ranks weight < last_id → paging.options.cutoff ≤ weight
        → paging.options.first + paging.options.size ≤ heavy_up_to (settling_weight paging weight) (settled paging ranks weight) ranks }
    ensures below { (paging : Paging) (ranks : List Rank) (weight : ℕ) → weight < paging.options.cutoff → settled paging ranks weight ≡ 0 }
{}

/// Laws: the sharper bound on steps is not above the allowance, nor above any of the numbers that apply.
pub fn sharp_is_least()
    ensures allowed { (query : Tree) (paging : Paging) (docs : Docs) (hits : ℕ)
        → sharp query paging docs hits ≤ allowance query paging docs (length (found_by query paging docs)) hits }
    ensures stop { (query : Tree) (paging : Paging) (docs : Docs) (hits n : ℕ)
        → stop_number query paging docs hits ≡ Some n → sharp query paging docs hits ≤ n }
    ensures rare { (query : Tree) (paging : Paging) (docs : Docs) (hits n : ℕ)
        → rare_number query paging docs (length (found_by query paging docs)) hits ≡ Some n
        → sharp query paging docs hits ≤ n }
    ensures decay { (query : Tree) (paging : Paging) (docs : Docs) (hits n : ℕ)
        → decay_number query paging docs hits ≡ Some n → sharp query paging docs hits ≤ n }
{}
