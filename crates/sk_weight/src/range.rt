//! Which values lie in a range.
ghost use Rattle.std.specs.Prelude.{◌≡◌};
ghost use Rattle.sk_query.specs.Trees.{limit_of};
ghost use Rattle.sk_model.specs.Ranges.{end_of, is_from, is_to, is_within, is_crossed};

use sk_base::number_bytes;
use sk_query::Bound;

/// Whether there is a value, and it lies between the two ends.
pub fn is_within(lo: &Bound, hi: &Bound, value: &[u8]) -> bool
    ensures { result ≡ is_within (end_of (limit_of lo.now)) (end_of (limit_of hi.now)) value.now }
{
    !value.is_empty() && is_from(lo, value) && is_to(hi, value)
}

/// Whether the lower end is above the upper one.
pub fn is_crossed(lo: &Bound, hi: &Bound) -> bool
    ensures { result ≡ is_crossed (end_of (limit_of lo.now)) (end_of (limit_of hi.now)) }
{
    match hi {
        Bound::Unbounded => false,
        Bound::Number(n) => !is_from(lo, number_bytes(*n).as_slice()),
        Bound::Text(text) => !is_from(lo, text.as_str().as_bytes()),
    }
}

fn is_from(lo: &Bound, value: &[u8]) -> bool
    ensures { result ≡ is_from (end_of (limit_of lo.now)) value.now }
{
    match lo {
        Bound::Unbounded => true,
        Bound::Number(n) => number_bytes(*n).as_slice().cmp(value).is_le(),
        Bound::Text(text) => text.as_str().as_bytes().cmp(value).is_le(),
    }
}

fn is_to(hi: &Bound, value: &[u8]) -> bool
    ensures { result ≡ is_to (end_of (limit_of hi.now)) value.now }
{
    match hi {
        Bound::Unbounded => true,
        Bound::Number(n) => value.cmp(number_bytes(*n).as_slice()).is_le(),
        Bound::Text(text) => value.cmp(text.as_str().as_bytes()).is_le(),
    }
}
