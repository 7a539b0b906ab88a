//! What is counted of the values of matches.
ghost use Rattle.std.specs.Prelude.{◌≡◌, ◌≤◌, ◌<◌, ◌^◌, true, All, length, bytes_eq, IfOk};
ghost use Rattle.std.specs.List.{list_any};
ghost use Rattle.sk_base.specs.Loads.{IsLight};
ghost use Rattle.sk_query.specs.Trees.{query_view};
ghost use Rattle.sk_query.specs.Fits.{is_sound, leaves_of};
ghost use Rattle.sk_model.specs.Facets.{values_found, times, number_without, AreCounted};

use crate::scores::score;
use crate::terms::value_in;
use sk_base::{Bytes, Doc, DocId, Facet, Scheme};
use sk_model::sort_facets;
use sk_query::Query;
use std::alloc::{AllocError, Global};
use std::collections::BTreeMap;

/// The value in the slot of each live document that the query matches, and the empty one where it has none.
pub fn values_found(
    alloc: Global,
    docs: &BTreeMap<DocId, Doc>,
    query: &Query,
    slot: u32,
) -> Result<Vec<Bytes>, AllocError>
    requires sound { is_sound 1 (query_view query.now) ≡ true }
    requires leaves { leaves_of (query_view query.now) ≤ 1024 }
    requires light { All IsLight docs.now.entries }
    ensures all { IfOk result (λ values. values.items ≡ values_found (query_view query.now) slot docs.now.entries) }
    ensures few { IfOk result (λ values. length values.items ≤ length docs.now.entries) }
{
    let mut values = Vec::new(alloc);
    'docs: for (_, doc) in docs.iter() {
        if score(query, Scheme::Bool, 1, doc).is_some() {
            let value = Bytes::new(alloc, value_in(slot, doc.values.as_slice()))?;
            values.push(value)?;
        }
    }
    Ok(values)
}

/// Each of the values that is not empty, once, with how many of them it is, in order.
pub fn count_values(alloc: Global, values: &[Bytes]) -> Result<Vec<Facet>, AllocError>
    requires { length values.now < 2 ^ 32 }
    ensures counted { IfOk result (λ facets. AreCounted values.now facets.items) }
    ensures few { IfOk result (λ facets. length facets.items ≤ length values.now) }
{
    let mut facets = Vec::new(alloc);
    'values: for value in values {
        let value = value.as_slice();
        if value.is_empty() || is_there(value, facets.as_slice()) {
            continue;
        }
        let facet = facet_of(alloc, value, values)?;
        facets.push(facet)?;
    }
    sort_facets(&mut facets);
    Ok(facets)
}

/// How many of the values are empty.
pub fn number_without(values: &[Bytes]) -> usize
    ensures value { result ≡ number_without values.now }
    ensures bound { result ≤ length values.now }
{
    values
        .iter()
        .filter(|value| value.as_slice().is_empty())
        .count()
}

/// Whether the value stands there.
fn is_there(value: &[u8], facets: &[Facet]) -> bool
    ensures { result ≡ list_any (λ f. bytes_eq f.value value.now) facets.now }
{
    facets.iter().any(|facet| facet.value.as_slice() == value)
}

/// The value with how many of the values it is.
fn facet_of(alloc: Global, value: &[u8], values: &[Bytes]) -> Result<Facet, AllocError>
    requires { length values.now < 2 ^ 32 }
    ensures { IfOk result (λ facet. facet ≡ record { value = value.now; count = times value.now values.now }) }
{
    let value = Bytes::new(alloc, value)?;
    let count = times(value.as_slice(), values) as u32;
    Ok(Facet { value, count })
}

/// How many of the values are this one.
fn times(value: &[u8], values: &[Bytes]) -> usize
    ensures value { result ≡ times value.now values.now }
    ensures bound { result ≤ length values.now }
{
    values.iter().filter(|one| value == one.as_slice()).count()
}
