//! Laws of documents that stand in several parts and are searched as one.
ghost use Rattle.std.specs.Prelude.{◌≡◌, ◌≤◌, ◌<◌, ◌+◌, ◌-◌, ◌/◌, ◌%◌, ℕ, List, true, length, All, IfSome};
ghost use Rattle.sk_sorted.specs.Entries.{RiseAbove};
ghost use Rattle.sk_sorted.specs.Joined.{joined, part_at, AllRise};
ghost use Rattle.sk_base.specs.declared.find.Scheme.{Scheme};
ghost use Rattle.sk_base.specs.declared.rank.Order.{Order};
ghost use Rattle.sk_base.specs.Documents.{AreTerms};
ghost use Rattle.sk_base.specs.Loads.{IsLight};
ghost use Rattle.sk_base.specs.Numbers.{Docs, live_of};
ghost use Rattle.sk_query.specs.Trees.{Tree};
ghost use Rattle.sk_query.specs.Fits.{is_sound};
ghost use Rattle.sk_model.specs.Edits.{document_at};
ghost use Rattle.sk_model.specs.Scores.{score};
ghost use Rattle.sk_model.specs.Matches.{matches};
ghost use Rattle.sk_model.specs.Joined.{part_docs, joined_ceil, joined_static, joined_ups, part_ups};

/// Laws: of parts whose documents have ids of their own from 1 on, the document of all under an id is the one that the
/// part whose turn it is has under its own id, the parts taking turns. The ids of all rise; and what stands of all in a
/// part is the part.
pub fn parts_are_whole()
    ensures found { (parts : List Docs) (id : ℕ) → 1 ≤ id → AllRise parts
        → document_at id (joined parts) ≡ document_at ((id - 1) / length parts + 1) (part_at parts ((id - 1) % length parts)) }
    ensures rise { (parts : List Docs) → RiseAbove 0 (joined parts) }
    ensures part { (parts : List Docs) (part : ℕ) → part < length parts → AllRise parts → part_docs (length parts) part (joined parts) ≡ part_at parts part }
{}

/// Laws: no more documents match than the parts tell, under any scheme and order, and that is not above the number of
/// documents.
pub fn matches_within_parts()
    ensures matches { (n : ℕ) (query : Tree) (scheme : Scheme) (order : Order) (above : ℕ) (docs : Docs) → 0 < n → RiseAbove 0 docs
        → is_sound above query ≡ true → length (matches query scheme order docs) ≤ joined_static n query docs }
    ensures live { (n : ℕ) (query : Tree) (docs : Docs) → 0 < n → RiseAbove 0 docs → joined_static n query docs ≤ live_of docs }
{}

/// Laws: no document weighs more than the parts tell, under any scheme; and of lists of terms, up to an id of all, the
/// parts have together what all have, and one entry more each.
pub fn score_within_parts()
    ensures score { (n : ℕ) (query : Tree) (scheme : Scheme) (above : ℕ) (docs : Docs) → 0 < n → RiseAbove 0 docs
        → is_sound above query ≡ true
        → All (λ one. AreTerms one.1.terms) docs
        → All IsLight docs
        → All (λ one. IfSome (score query scheme 1 one.1) (λ w. w ≤ joined_ceil n query scheme docs)) docs }
    ensures ups { (parts : List Docs) (lists : List (List ℕ)) (id : ℕ) → AllRise parts
        → part_ups (length parts) 0 lists id parts ≡ joined_ups (length parts) lists id (joined parts) }
{}
