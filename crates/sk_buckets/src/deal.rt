//! Lists dealt into buckets.
ghost use Rattle.std.specs.Prelude.{◌≡◌, ◌≤◌, ◌<◌, ◌+◌, ◌^◌, [], length, set, IfSome, IfNone};
ghost use Rattle.sk_buckets.specs.declared.mark.Mark.{Mark};
ghost use Rattle.sk_buckets.specs.Marks.{first_head, greatest_of, AreMarks};
ghost use Rattle.sk_buckets.specs.Dealt.{bucket_at, AreDealt, AllFrom};

use crate::bucket::{Bucket, first_filled, put_in, take_out};
use crate::mark::{END, Mark};

/// The least id at which a list stands.
pub(crate) fn least_head(marks: &[Mark]) -> u64
    ensures { result ≡ first_head marks.now }
{
    let mut least = END;
    for mark in marks {
        least = least.min(mark.head);
    }
    least
}

/// What all can weigh together.
pub(crate) fn greatest(marks: &[Mark]) -> u64
    requires { greatest_of marks.now < 2 ^ 63 }
    ensures { result ≡ greatest_of marks.now }
{
    let mut greatest = 0;
    for mark in marks {
        greatest += u64::from(mark.greatest);
    }
    greatest
}

/// The place of the bucket for an id; `None` where the id lies behind the window.
fn place_of(buckets: &[Bucket], base: u64, id: u64) -> Option<usize>
    requires { base ≤ id }
    ensures there { IfSome result (λ place. (place < length buckets.now) × (id ≡ base + place)) }
    ensures behind { IfNone result (base + length buckets.now ≤ id) }
{
    let place = (id - base) as usize;
    (place < buckets.len()).then_some(place)
}

/// Deals all lists out into empty buckets, the first one for the id `base`.
pub(crate) fn deal(marks: &[Mark], base: u64, buckets: &mut [Bucket], next: &mut [u32])
    requires are { AreMarks marks.now }
    requires from { AllFrom base marks.now }
    requires long { length next.old ≡ length marks.now }
    requires empty { AreDealt [] base buckets.old next.old }
    ensures dealt { AreDealt marks.now base buckets.new next.new }
    ensures len { length buckets.new ≡ length buckets.old }
    ensures long { length next.new ≡ length next.old }
{
    for (which, mark) in marks.iter().enumerate() {
        if let Some(place) = place_of(buckets, base, mark.head) {
            put_in(buckets, next, place, which, mark.weight);
        }
    }
}

/// Moves on to the first bucket with a list, and deals all lists out anew where the window has none. Answers the first id
/// of the window, and the place of the bucket.
pub(crate) fn advance(
    marks: &[Mark],
    base: u64,
    at: usize,
    buckets: &mut [Bucket],
    next: &mut [u32],
) -> (u64, usize)
    requires are { AreMarks marks.now }
    requires some { 0 < length marks.now }
    requires room { 0 < length buckets.old }
    requires within { at ≤ length buckets.old }
    requires from { AllFrom (base + at) marks.now }
    requires long { length next.old ≡ length marks.now }
    requires dealt { AreDealt marks.now base buckets.old next.old }
    ensures within { result.1 < length buckets.new }
    ensures filled { 0 < (bucket_at buckets.new result.1).count }
    ensures from { AllFrom (result.0 + result.1) marks.now }
    ensures dealt { AreDealt marks.now result.0 buckets.new next.new }
    ensures len { length buckets.new ≡ length buckets.old }
    ensures long { length next.new ≡ length next.old }
{
    let at = first_filled(buckets, at);
    if at < buckets.len() {
        return (base, at);
    }
    let base = least_head(marks);
    deal(marks, base, buckets, next);
    (base, 0)
}

/// Takes a list out of its bucket. One that stands behind the window is in none.
pub(crate) fn leave(
    marks: &[Mark],
    base: u64,
    buckets: &mut [Bucket],
    next: &mut [u32],
    which: usize,
)
    requires are { AreMarks marks.now }
    requires there { which < length marks.now }
    requires from { AllFrom base marks.now }
    requires long { length next.old ≡ length marks.now }
    requires dealt { AreDealt marks.now base buckets.old next.old }
    ensures dealt { (far : Mark) → base + length buckets.old ≤ far.head → AreDealt (set marks.now which far) base buckets.new next.new }
    ensures len { length buckets.new ≡ length buckets.old }
    ensures long { length next.new ≡ length next.old }
{
    let mark = marks[which];
    if let Some(place) = place_of(buckets, base, mark.head) {
        take_out(buckets, next, place, which, mark.weight);
    }
}

/// Puts a list that is in no bucket into the one of its mark.
pub(crate) fn enter(
    marks: &[Mark],
    base: u64,
    buckets: &mut [Bucket],
    next: &mut [u32],
    which: usize,
)
    requires are { AreMarks marks.now }
    requires there { which < length marks.now }
    requires from { AllFrom base marks.now }
    requires long { length next.old ≡ length marks.now }
    requires dealt { (far : Mark) → base + length buckets.old ≤ far.head → AreDealt (set marks.now which far) base buckets.old next.old }
    ensures dealt { AreDealt marks.now base buckets.new next.new }
    ensures len { length buckets.new ≡ length buckets.old }
    ensures long { length next.new ≡ length next.old }
{
    let mark = marks[which];
    if let Some(place) = place_of(buckets, base, mark.head) {
        put_in(buckets, next, place, which, mark.weight);
    }
}
