//! The hits of a page.
ghost use Rattle.std.specs.Prelude.{◌≡◌, ◌≤◌, ◌+◌, length, map, drop, IfOk};
ghost use Rattle.sk_page.specs.Hits.{dropped_of, ranked_of};

use crate::reader::Reader;
use sk_base::{Hits, Items, Ranked, Text};
use sk_collapse::Collapser;
use sk_heap::Hit;
use sk_steps::Steps;
use std::alloc::{AllocError, Global};
use std::sync::ledger::Ledger;

/// The hits of a page, each with its document's payload, which is one reading.
pub(crate) fn hits_of<R: Reader, L: Ledger>(
    alloc: Global,
    reader: &R,
    collapser: &Option<Collapser>,
    hits: &[Hit],
    steps: &mut Steps<L>,
) -> Result<Hits, AllocError>
    ensures hits { IfOk result (λ page. page ≡ map (ranked_of (R.documents reader.now) collapser.now) hits.now) }
    ensures cost { IfOk result (λ page. steps.new ≡ steps.old + length page) }
    ensures later { steps.old ≤ steps.new }
{
    let mut page = Vec::new(alloc);
    'hits: for hit in hits {
        let ranked = ranked_of(alloc, reader, collapser, hit, steps)?;
        page.push(ranked)?;
    }
    Ok(Items::from_vec(page))
}

fn ranked_of<R: Reader, L: Ledger>(
    alloc: Global,
    reader: &R,
    collapser: &Option<Collapser>,
    hit: &Hit,
    steps: &mut Steps<L>,
) -> Result<Ranked, AllocError>
    ensures ranked { IfOk result (λ ranked. ranked ≡ ranked_of (R.documents reader.now) collapser.now hit.now) }
    ensures cost { steps.new ≡ steps.old + 1 }
{
    let payload = match reader.payload(hit.rank.id, steps) {
        Some(text) => Text::new(alloc, text)?,
        None => Text::empty(alloc),
    };
    Ok(Ranked {
        id: hit.rank.id,
        weight: hit.rank.weight,
        collapsed: dropped_of(collapser, hit.key.as_slice()),
        payload,
    })
}

fn dropped_of(collapser: &Option<Collapser>, key: &[u8]) -> u32
    ensures { result ≡ dropped_of collapser.now key.now }
{
    match collapser {
        Some(collapser) => collapser.dropped(key),
        None => 0,
    }
}
