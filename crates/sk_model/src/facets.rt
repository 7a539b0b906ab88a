//! The order of values with their counts, and laws of counting.
ghost use Rattle.std.specs.Prelude.{◌≡◌, ◌≤◌, ◌+◌, ℕ, List, length, sum_by, IsPermutation};
ghost use Rattle.sk_base.specs.declared.facets.Facet.{Facet};
ghost use Rattle.sk_model.specs.Counting.{counted};
ghost use Rattle.sk_model.specs.Facets.{number_without, AreCounted};
ghost use Rattle.sk_model.specs.Laws.{AreTallied, facet_cmp};

use sk_base::Facet;
use std::cmp::Ordering;

/// The greater count first, then the lesser value. It takes no memory.
pub fn sort_facets(facets: &mut [Facet])
    ensures counted { (values : List (List ℕ)) → AreTallied values facets.old → AreCounted values facets.new }
    ensures same { IsPermutation facets.old facets.new }
{
    facets.sort_unstable_by(compare_facets);
}

/// How the two are ordered: the lesser stands first.
pub fn compare_facets(a: &Facet, b: &Facet) -> Ordering
    ensures { result ≡ facet_cmp a.now b.now }
{
    let counts = b.count.cmp(&a.count);
    counts.then(a.value.as_slice().cmp(b.value.as_slice()))
}

/// Laws: there is one list of what is counted of some values, so whoever counts them gives this list.
pub fn one_list_of_facets()
    ensures there { (values : List (List ℕ)) → AreCounted values (counted values) }
    ensures one { (values : List (List ℕ)) (facets others : List Facet) → AreCounted values facets → AreCounted values others → facets ≡ others }
{}

/// Laws: each of the values is counted once, or it is empty; so no more are counted than there are values.
pub fn facets_add_up()
    ensures sum { (values : List (List ℕ)) (facets : List Facet) → AreCounted values facets
        → sum_by (λ f. f.count) facets + number_without values ≡ length values }
    ensures few { (values : List (List ℕ)) (facets : List Facet) → AreCounted values facets → length facets ≤ length values }
{}
