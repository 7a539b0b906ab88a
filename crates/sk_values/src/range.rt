//! Which values lie in a range.
ghost use Rattle.std.specs.Prelude.{◌≡◌, ◌≢◌, length, IfSome, IfNone};
ghost use Rattle.std.specs.Ordering.{nat_cmp, is_le};
ghost use Rattle.std.specs.Cmp.Lexicographic.{slice_cmp};
ghost use Rattle.std.specs.Slice.Scan.{big_endian};
ghost use Rattle.sk_model.specs.Ranges.{is_from, is_to, is_within};
ghost use Rattle.sk_values.specs.Numbers.{IsNumber};

use sk_base::Bytes;

/// Whether there is a value, and it lies between the two ends.
pub(crate) fn is_within(lo: &Option<Bytes>, hi: &Option<Bytes>, value: &[u8]) -> bool
    ensures { result ≡ is_within lo.now hi.now value.now }
{
    !value.is_empty() && is_from(lo, value) && is_to(hi, value)
}

fn is_from(lo: &Option<Bytes>, value: &[u8]) -> bool
    ensures { result ≡ is_from lo.now value.now }
{
    match lo {
        None => true,
        Some(lo) => is_at_most(lo.as_slice(), value),
    }
}

fn is_to(hi: &Option<Bytes>, value: &[u8]) -> bool
    ensures { result ≡ is_to hi.now value.now }
{
    match hi {
        None => true,
        Some(hi) => is_at_most(value, hi.as_slice()),
    }
}

/// Whether the first does not come behind the second. Numbers, which are eight bytes, are compared in one step, and
/// others byte by byte: most values are short, and differ soon.
fn is_at_most(a: &[u8], b: &[u8]) -> bool
    ensures { result ≡ is_le (slice_cmp nat_cmp a.now b.now) }
{
    if a.len() == 8 && b.len() == 8 {
        return number(a) <= number(b);
    }
    let both = a.len().min(b.len());
    let mut i = 0usize;
    'bytes: while i < both {
        if a[i] != b[i] {
            return a[i] < b[i];
        }
        i += 1;
    }
    a.len() <= b.len()
}

/// The number of eight bytes; none of fewer or more.
pub(crate) fn number_of(bytes: &[u8]) -> Option<u64>
    ensures number { IfSome result (λ n. IsNumber n bytes.now) }
    ensures none { IfNone result (length bytes.now ≢ 8) }
{
    if bytes.len() == 8 {
        Some(number(bytes))
    } else {
        None
    }
}

/// The number of eight bytes, the highest of them first.
fn number(bytes: &[u8]) -> u64
    requires { length bytes.now ≡ 8 }
    ensures { result ≡ big_endian 0 bytes.now }
{
    u64::from_be_bytes([
        bytes[0], bytes[1], bytes[2], bytes[3], bytes[4], bytes[5], bytes[6], bytes[7],
    ])
}
