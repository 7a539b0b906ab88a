//! The facets of a query, exactly.
ghost use Rattle.std.specs.Prelude.{◌≡◌, ◌≤◌, ◌<◌, ◌^◌, true, All, IfOk, length};
ghost use Rattle.sk_query.specs.Trees.{query_view};
ghost use Rattle.sk_query.specs.Fits.{is_sound, leaves_of};
ghost use Rattle.sk_base.specs.Loads.{IsLight};
ghost use Rattle.sk_model.specs.Facets.{facet_allowance};
ghost use Rattle.sk_report.specs.Facets.{FacetsFor};

use crate::allowance::list_readings;
use sk_base::{Doc, DocId, FacetList, Facets};
use sk_plain::{count_values, number_without, values_found};
use sk_query::Query;
use std::alloc::{AllocError, Global};
use std::collections::BTreeMap;

/// The facets of a query in a slot: how often each value stands, counted by itself. The steps are the most that the
/// rules allow; it is an error where 128 bits do not hold them.
pub fn facets_of(
    alloc: Global,
    docs: &BTreeMap<DocId, Doc>,
    query: &Query,
    slot: u32,
    size: u32,
) -> Result<Facets, AllocError>
    requires sound { is_sound 1 (query_view query.now) ≡ true }
    requires leaves { leaves_of (query_view query.now) ≤ 1024 }
    requires light { All IsLight docs.now.entries }
    requires few { length docs.now.entries < 2 ^ 32 }
    ensures facets { IfOk result (λ facets. FacetsFor (query_view query.now) slot size docs.now.entries facets) }
    ensures steps { IfOk result (λ facets. facets.steps ≡ facet_allowance (query_view query.now) docs.now.entries) }
{
    let values = values_found(alloc, docs, query, slot)?;
    let mut facets = count_values(alloc, values.as_slice())?;
    let distinct = facets.len() as u32;
    facets.truncate(size as usize);
    let steps = list_readings(alloc, query, docs, values.len())?;
    Ok(Facets {
        values: FacetList::from_vec(facets),
        distinct,
        without: number_without(values.as_slice()) as u32,
        matches: values.len() as u32,
        steps,
    })
}
