//! The first of what was counted, in order.
ghost use Rattle.std.specs.Prelude.{◌≡◌, ◌<◌, ℕ, List, length, IfOk};
ghost use Rattle.sk_model.specs.Laws.{AreTallied, facet_cmp};
ghost use Rattle.sk_facets.specs.Tallied.{facet_in, facets_in, AreChosen, AreOrdered, AreFirst};

use sk_base::{Bytes, Facet};
use std::alloc::{AllocError, Global};
use std::cmp::Ordering;

/// A value, and how often it was seen.
pub(crate) type Entry = (Vec<u8>, u32);

/// The first so many, in order. The others are told apart from these, and not put in order.
pub(crate) fn first_of(
    alloc: Global,
    entries: Vec<Entry>,
    size: usize,
) -> Result<Vec<Facet>, AllocError>
    ensures { IfOk result (λ facets. (values : List (List ℕ)) → AreTallied values (facets_in entries.items) → AreFirst values size facets.items (length entries.items)) }
{
    let mut entries = entries;
    if size < entries.len() {
        let front = choose(&mut entries, size);
        return in_order(alloc, front);
    }
    in_order(alloc, &mut entries)
}

/// So many, such that none of the others stands before one of these.
fn choose(entries: &mut [Entry], size: usize) -> &mut [Entry]
    requires { size < length entries.old }
    ensures { AreChosen entries.old result.now size }
{
    let (front, _, _) = entries.select_nth_unstable_by(size, compare);
    front
}

/// They in order, as they are told.
fn in_order(alloc: Global, entries: &mut [Entry]) -> Result<Vec<Facet>, AllocError>
    ensures { IfOk result (λ facets. AreOrdered entries.old facets.items) }
{
    entries.sort_unstable_by(compare);
    copies(alloc, entries)
}

/// How the two are ordered: the greater count first, then the lesser value.
fn compare(a: &Entry, b: &Entry) -> Ordering
    ensures { result ≡ facet_cmp (facet_in a.now) (facet_in b.now) }
{
    b.1.cmp(&a.1).then(a.0.cmp(&b.0))
}

/// Copies of them as they are told.
fn copies(alloc: Global, entries: &[Entry]) -> Result<Vec<Facet>, AllocError>
    ensures { IfOk result (λ facets. facets.items ≡ facets_in entries.now) }
{
    let mut facets = Vec::new(alloc);
    'entries: for (value, count) in entries {
        let value = Bytes::new(alloc, value.as_slice())?;
        facets.push(Facet {
            value,
            count: *count,
        })?;
    }
    Ok(facets)
}
