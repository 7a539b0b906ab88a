//! A match that is offered to a page.
ghost use Rattle.std.specs.Prelude.{◌≡◌, ◌≢◌, ◌<◌, ◌+◌, ◌^◌, ℕ, true, List, [], length, All, IfOk, IsOk, OnOk, IfSome, None};
ghost use Rattle.sk_base.specs.declared.rank.Rank.{Rank};
ghost use Rattle.sk_collapse.specs.Collapsed.{group_of};
ghost use Rattle.std.specs.Option.{IsSomeAnd};
ghost use Rattle.sk_heap.specs.Held.{need_of, offered};
ghost use Rattle.sk_page.specs.Pages.{Offers};

use sk_base::{Bytes, DocId, Rank, Weight};
use sk_collapse::{Collapser, Verdict};
use sk_heap::{Hit, ResultHeap};
use std::alloc::{AllocError, Global};

/// Bytes for an entry. No bytes take no memory.
fn bytes_of(alloc: Global, bytes: &[u8]) -> Result<Bytes, AllocError>
    ensures bytes { IfOk result (λ copy. copy ≡ bytes.now) }
    ensures free { bytes.now ≡ [] → IsOk result }
{
    if bytes.is_empty() {
        return Ok(Bytes::empty(alloc));
    }
    Bytes::new(alloc, bytes)
}

/// Offers a match to a page. No entry is made for one that comes after all that are held, where nothing is collapsed.
pub(crate) fn show(
    alloc: Global,
    heap: &mut ResultHeap,
    collapser: &mut Option<Collapser>,
    id: DocId,
    weight: Weight,
    value: &[u8],
    key: &[u8],
) -> Result<(), AllocError>
    requires room { heap.old.room ≡ heap.old.most }
    requires under { All (λ h. h.rank.id < id) heap.old.hits }
    requires light { weight < 2 ^ 127 }
    requires few { IfSome collapser.old (λ c. c.seen + 1 < 2 ^ 32) }
    requires apart { IfSome collapser.old (λ c. (k : List ℕ) → 0 < length k → All (λ r. r.id ≢ id) (group_of k c.groups).kept) }
    ensures offers { OnOk result (Offers heap.old heap.new collapser.old collapser.new (record { rank = record { weight = weight; value = value.now; id = id }; key = key.now })) }
    ensures free { collapser.old ≡ None → value.now ≡ [] → key.now ≡ [] → IsOk result }
{
    let _ordered = heap.len();
    if collapser.is_none() && is_kept_out(heap, weight) {
        return Ok(());
    }
    if collapser.is_none() && heap.turns_away(weight, value, id) {
        return Ok(());
    }
    let value = bytes_of(alloc, value)?;
    let key = bytes_of(alloc, key)?;
    let rank = Rank { weight, value, id };
    offer(heap, collapser, Hit { rank, key })?;
    Ok(())
}

/// Whether what weighs so much, and has a greater id than all that are held, comes after them.
fn is_kept_out(heap: &ResultHeap, weight: Weight) -> bool
    ensures { result ≡ true → IsSomeAnd (need_of heap.now) (λ need. weight < need) }
{
    match heap.need() {
        Some(need) => weight < need,
        None => false,
    }
}

/// Shows a match to the collapser, if there is one, and does with it what that says.
fn offer(
    heap: &mut ResultHeap,
    collapser: &mut Option<Collapser>,
    hit: Hit,
) -> Result<(), AllocError>
    requires room { heap.old.room ≡ heap.old.most }
    requires differs { All (λ h. h.rank.id ≢ hit.rank.id) heap.old.hits }
    requires light { hit.rank.weight < 2 ^ 127 }
    requires few { IfSome collapser.old (λ c. c.seen + 1 < 2 ^ 32) }
    requires apart { IfSome collapser.old (λ c. (k : List ℕ) → 0 < length k → All (λ r. r.id ≢ hit.rank.id) (group_of k c.groups).kept) }
    ensures offers { OnOk result (Offers heap.old heap.new collapser.old collapser.new hit) }
    ensures free { collapser.old ≡ None → IsOk result }
{
    let verdict = match collapser {
        None => Verdict::Keep,
        Some(collapser) => collapser.see(hit.key.as_slice(), &hit.rank)?,
    };
    match verdict {
        Verdict::Drop => {}
        Verdict::Keep => put(heap, hit),
        Verdict::KeepFor(id) => {
            heap.remove(id);
            put(heap, hit);
        }
    }
    Ok(())
}

fn put(heap: &mut ResultHeap, hit: Hit)
    requires room { heap.old.room ≡ heap.old.most }
    requires differs { All (λ h. h.rank.id ≢ hit.rank.id) heap.old.hits }
    requires light { hit.rank.weight < 2 ^ 127 }
    ensures { heap.new ≡ offered hit heap.old }
{
    let _few = heap.len();
    heap.offer(hit);
}
