//! The text of facets.
ghost use Rattle.std.specs.Prelude.{◌≡◌, ◌++◌, string_bytes, IfOk, OnOk};
ghost use Rattle.sk_run.specs.Facets.{number_in, text_in, value_text, facets_line, facet_line, facets_text};

use crate::found::json_string;
use sk_base::{Facet, Facets, ValueKind};
use std::alloc::{AllocError, Global};

/// The line of facets, and one line for each value that is told.
pub(crate) fn facets_lines(
    alloc: Global,
    kind: ValueKind,
    facets: &Facets,
) -> Result<String, AllocError>
    ensures { IfOk result (λ s. string_bytes s ≡ facets_text kind facets.now) }
{
    let mut text = facets_line(alloc, facets)?;
    'values: for facet in facets.values.as_slice() {
        push_facet_line(&mut text, kind, facet)?;
    }
    Ok(text)
}

fn facets_line(alloc: Global, facets: &Facets) -> Result<String, AllocError>
    ensures { IfOk result (λ s. string_bytes s ≡ facets_line facets.now) }
{
    let matches = facets.matches;
    let distinct = facets.distinct;
    let without = facets.without;
    let steps = facets.steps;
    format!(in alloc;
        "facets matches={matches} distinct={distinct} without={without} steps={steps}\n"
    )
}

/// Writes the line of a value behind the text.
fn push_facet_line(text: &mut String, kind: ValueKind, facet: &Facet) -> Result<(), AllocError>
    ensures { OnOk result (string_bytes text.new ≡ string_bytes text.old ++ facet_line kind facet.now) }
{
    let count = facet.count;
    let value = value_text(*text.allocator(), kind, facet.value.as_slice())?;
    let value = value.as_str();
    write!(text, "facet count={count} value={value}\n")
}

/// The value in JSON.
fn value_text(alloc: Global, kind: ValueKind, value: &[u8]) -> Result<String, AllocError>
    ensures { IfOk result (λ s. string_bytes s ≡ value_text kind value.now) }
{
    match kind {
        ValueKind::Number => {
            let number = number_in(value);
            format!(in alloc; "{number}")
        }
        ValueKind::Word => json_string(alloc, text_in(value)),
    }
}

/// The number whose eight bytes the value is, the most significant first.
fn number_in(value: &[u8]) -> u64
    ensures { result ≡ number_in value.now }
{
    match <[u8; 8]>::try_from(value) {
        Ok(bytes) => u64::from_be_bytes(bytes),
        Err(_) => 0,
    }
}

/// The text whose bytes the value is.
#[tactic(auto, using(crate::proofs::FacetLemmas::text_told, crate::proofs::FacetLemmas::no_text))]
fn text_in(value: &[u8]) -> &str
    ensures { result.now ≡ text_in value.entry.now }
{
    match str::from_utf8(value) {
        Ok(text) => text,
        Err(_) => "",
    }
}
