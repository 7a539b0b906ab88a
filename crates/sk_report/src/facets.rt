//! Laws of facets.
ghost use Rattle.std.specs.Prelude.{◌≡◌, ℕ};
ghost use Rattle.sk_base.specs.declared.facets.Facets.{Facets};
ghost use Rattle.sk_base.specs.Numbers.{Docs};
ghost use Rattle.sk_query.specs.Trees.{Tree};
ghost use Rattle.sk_report.specs.Facets.{FacetsFor};

/// Laws: each query has facets in each slot, and they differ in nothing but the steps.
pub fn facets_are_there()
    ensures there { (query : Tree) (slot size : ℕ) (docs : Docs) → (facets : Facets) × FacetsFor query slot size docs facets }
    ensures alike { (query : Tree) (slot size : ℕ) (docs : Docs) (facets others : Facets)
        → FacetsFor query slot size docs facets → FacetsFor query slot size docs others
        → (facets.values ≡ others.values) × (facets.distinct ≡ others.distinct) × (facets.without ≡ others.without) × (facets.matches ≡ others.matches) }
{}
