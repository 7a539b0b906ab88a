//! Buckets, and the chain of lists in each.
ghost use Rattle.std.specs.Prelude.{◌≡◌, ◌≢◌, ◌<◌, ◌≤◌, ◌+◌, ◌-◌, ◌^◌, ℕ, length, set, slice_index};
ghost use Rattle.sk_buckets.specs.declared.bucket.Bucket.{Bucket};
ghost use Rattle.sk_buckets.specs.Dealt.{bucket_at, chain, lists_in, Among, Differ, Apart, IsWithout};

/// The lists that stand at one id: how many, the first of their chain, and what they weigh there together.
#[derive(Clone, Copy)]
pub(crate) struct Bucket {
    pub(crate) count: u32,
    pub(crate) first: u32,
    pub(crate) weight: u64,
}

impl Bucket {
    /// No list.
    pub(crate) const EMPTY: Bucket = Bucket {
        count: 0,
        first: 0,
        weight: 0,
    };
}

/// The place of the first bucket with a list, from a place on; the number of buckets where there is none.
pub(crate) fn first_filled(buckets: &[Bucket], from: usize) -> usize
    requires { from ≤ length buckets.now }
    ensures within { result ≤ length buckets.now }
    ensures from { from ≤ result }
    ensures empty { (place : ℕ) → from ≤ place → place < result → (bucket_at buckets.now place).count ≡ 0 }
    ensures filled { result < length buckets.now → 0 < (bucket_at buckets.now result).count }
{
    let mut at = from;
    while at < buckets.len() && buckets[at].count == 0 {
        at += 1;
    }
    at
}

/// Puts a list into the bucket at a place, before the others.
pub(crate) fn put_in(
    buckets: &mut [Bucket],
    next: &mut [u32],
    place: usize,
    which: usize,
    weight: u32,
)
    requires place { place < length buckets.old }
    requires which { which < length next.old }
    requires few { which < 2 ^ 32 }
    requires room { (bucket_at buckets.old place).count + 1 < 2 ^ 32 }
    requires light { (bucket_at buckets.old place).weight + weight < 2 ^ 64 }
    ensures next { next.new ≡ set next.old which (bucket_at buckets.old place).first }
    ensures bucket { buckets.new ≡ set buckets.old place (record {
      count = (bucket_at buckets.old place).count + 1;
      first = which;
      weight = (bucket_at buckets.old place).weight + weight;
    }) }
{
    let bucket = &mut buckets[place];
    next[which] = bucket.first;
    bucket.count += 1;
    bucket.first = which as u32;
    bucket.weight += u64::from(weight);
}

/// Takes a list out of the bucket at a place. It takes constant time where the list is the first in there.
pub(crate) fn take_out(
    buckets: &mut [Bucket],
    next: &mut [u32],
    place: usize,
    which: usize,
    weight: u32,
)
    requires place { place < length buckets.old }
    requires there { Among which (lists_in next.old (bucket_at buckets.old place)) }
    requires within { (i : ℕ) → Among i (lists_in next.old (bucket_at buckets.old place)) → i < length next.old }
    requires differ { Differ (lists_in next.old (bucket_at buckets.old place)) }
    requires light { weight ≤ (bucket_at buckets.old place).weight }
    ensures len { length buckets.new ≡ length buckets.old }
    ensures long { length next.new ≡ length next.old }
    ensures others { (other : ℕ) → other ≢ place → bucket_at buckets.new other ≡ bucket_at buckets.old other }
    ensures count { (bucket_at buckets.new place).count + 1 ≡ (bucket_at buckets.old place).count }
    ensures weight { (bucket_at buckets.new place).weight + weight ≡ (bucket_at buckets.old place).weight }
    ensures left { IsWithout which (lists_in next.old (bucket_at buckets.old place)) (lists_in next.new (bucket_at buckets.new place)) }
    ensures apart { (count first : ℕ) → Apart (chain count next.old first) (lists_in next.old (bucket_at buckets.old place))
        → chain count next.new first ≡ chain count next.old first }
{
    let bucket = &mut buckets[place];
    bucket.first = unlink(next, bucket.first, bucket.count, which);
    bucket.count -= 1;
    bucket.weight -= u64::from(weight);
}

/// Takes a list out of a chain of so many, and says which is the first then.
fn unlink(next: &mut [u32], first: u32, count: u32, which: usize) -> u32
    requires there { Among which (chain count next.old first) }
    requires within { (i : ℕ) → Among i (chain count next.old first) → i < length next.old }
    requires differ { Differ (chain count next.old first) }
    ensures long { length next.new ≡ length next.old }
    ensures left { IsWithout which (chain count next.old first) (chain (count - 1) next.new result) }
    ensures apart { (n i : ℕ) → Apart (chain n next.old i) (chain count next.old first)
        → chain n next.new i ≡ chain n next.old i }
{
    if first as usize == which {
        return next[which];
    }
    let before = before(next, first, count, which);
    next[before] = next[which];
    first
}

/// The list before one that is not the first of a chain of so many.
fn before(next: &[u32], first: u32, count: u32, which: usize) -> usize
    requires there { Among which (chain count next.now first) }
    requires within { (i : ℕ) → Among i (chain count next.now first) → i < length next.now }
    requires later { first ≢ which }
    ensures there { Among result (chain (count - 1) next.now first) }
    ensures next { slice_index next.now result ≡ which }
{
    let mut at = first as usize;
    'walk: for _ in 1..count {
        let behind = next[at] as usize;
        if behind == which {
            return at;
        }
        at = behind;
    }
    unreachable!()
}
