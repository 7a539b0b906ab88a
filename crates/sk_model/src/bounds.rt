//! Laws of the bounds on weights and on the number of matches.
ghost use Rattle.std.specs.Prelude.{◌≡◌, ◌≤◌, ◌*◌, ◌^◌, ℕ, true, length, All, IfSome};
ghost use Rattle.sk_base.specs.declared.doc.Doc.{Doc};
ghost use Rattle.sk_base.specs.declared.find.Scheme.{Scheme};
ghost use Rattle.sk_base.specs.declared.rank.Order.{Order};
ghost use Rattle.sk_base.specs.Documents.{AreTerms};
ghost use Rattle.sk_base.specs.Loads.{IsLight};
ghost use Rattle.sk_base.specs.Numbers.{Docs, live_of};
ghost use Rattle.sk_query.specs.Trees.{Tree};
ghost use Rattle.sk_query.specs.Fits.{is_sound, leaves_of};
ghost use Rattle.sk_model.specs.Scores.{score};
ghost use Rattle.sk_model.specs.Matches.{matches};
ghost use Rattle.sk_model.specs.Bounds.{ceil, static_count};

/// A law: no document of a list weighs more than `ceil` says, under any scheme and factor. The documents have each of
/// their terms once, in byte order, and are light (their wdfs are below 2^29 together). The query is sound (it keeps
/// the conditions on trees), whatever the product of the factors above it.
pub fn score_within_ceil()
    ensures { (query : Tree) (scheme : Scheme) (above factor : ℕ) (docs : Docs)
        → is_sound above query ≡ true
        → All (λ one. AreTerms one.1.terms) docs
        → All IsLight docs
        → All (λ one. IfSome (score query scheme factor one.1) (λ w. w ≤ ceil query scheme factor docs)) docs }
{}

/// A law: no more documents of a list match a query than `static_count` says, under any scheme and order. The query is
/// sound; of the documents nothing is asked.
pub fn matches_within_static()
    ensures { (query : Tree) (scheme : Scheme) (order : Order) (above : ℕ) (docs : Docs)
        → is_sound above query ≡ true → length (matches query scheme order docs) ≤ static_count query docs }
{}

/// A law: `static_count` is not above the number of documents.
pub fn static_within_live()
    ensures { (query : Tree) (docs : Docs) → static_count query docs ≤ live_of docs }
{}

/// Laws: weights fit. Under a sound query and a factor of at most 65,536, over light documents, nothing weighs more
/// than 2^74 a leaf: neither a document nor the bound. So with at most 1,024 leaves no weight is above 2^84.
pub fn weights_fit()
    ensures ceil { (query : Tree) (scheme : Scheme) (factor : ℕ) (docs : Docs) → is_sound factor query ≡ true → factor ≤ 65536
        → All IsLight docs → ceil query scheme factor docs ≤ leaves_of query * 2 ^ 74 }
    ensures score { (query : Tree) (scheme : Scheme) (factor : ℕ) (one : ℕ × Doc) → is_sound factor query ≡ true → factor ≤ 65536
        → IsLight one → IfSome (score query scheme factor one.1) (λ w. w ≤ leaves_of query * 2 ^ 74) }
    ensures small { (query : Tree) (scheme : Scheme) (factor : ℕ) (docs : Docs) → is_sound factor query ≡ true → factor ≤ 65536
        → All IsLight docs → leaves_of query ≤ 1024 → ceil query scheme factor docs ≤ 2 ^ 84 }
{}
