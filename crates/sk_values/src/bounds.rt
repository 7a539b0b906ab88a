//! The ends of a range, made ready to be compared with many values.
ghost use Rattle.std.specs.Prelude.{◌≡◌, IfSome};
ghost use Rattle.sk_model.specs.Ranges.{is_within};
ghost use Rattle.sk_values.specs.Numbers.{IsLeast, IsGreatest};

use crate::range::{is_within, number_of};
use crate::value::Value;
use sk_base::Bytes;
use std::marker::Model;

/// The two ends of a range, each of which may be open.
#[derive(Debug, Drop)]
pub(crate) struct Bounds {
    lo: Option<Bytes>,
    hi: Option<Bytes>,
    /// The least number in the range and the greatest, where each end is open or a number.
    numbers: Option<(u64, u64)>,
}

impl Model for Bounds {
    ghost use Rattle.std.specs.Prelude.{IfSome};
    ghost use Rattle.sk_values.specs.Numbers.{Ends, IsLeast, IsGreatest};

    ghost Value = { Ends };

    ghost view = { λ b. record { lo = b.lo; hi = b.hi } };

    ghost invariant = { λ b. IfSome b.numbers (λ n. IsLeast b.lo n.0 × IsGreatest b.hi n.1) };
}

impl Bounds {
    pub fn new(lo: Option<Bytes>, hi: Option<Bytes>) -> Bounds
        ensures lo { result.lo ≡ lo }
        ensures hi { result.hi ≡ hi }
    {
        let numbers = match (least_from(&lo), greatest_to(&hi)) {
            (Some(least), Some(greatest)) => Some((least, greatest)),
            _ => None,
        };
        Bounds { lo, hi, numbers }
    }

    /// The least number in the range and the greatest, where each end is open or a number.
    pub fn numbers(&self) -> Option<(u64, u64)>
        ensures { IfSome result (λ n. IsLeast self.now.lo n.0 × IsGreatest self.now.hi n.1) }
    {
        self.numbers
    }

    /// Whether there is a value, and it lies between the two ends. Where each end is open or a number, a number takes two
    /// compares.
    #[inline]
    pub fn contains(&self, value: &Value) -> bool
        ensures { result ≡ is_within self.now.lo self.now.hi value.now }
    {
        match (self.numbers, value.number()) {
            (Some((least, greatest)), Some(n)) => (least <= n) & (n <= greatest),
            _ => is_within(&self.lo, &self.hi, value.as_slice()),
        }
    }
}

/// The least number that is not below the end, where that is open or a number.
fn least_from(lo: &Option<Bytes>) -> Option<u64>
    ensures { IfSome result (λ n. IsLeast lo.now n) }
{
    match lo {
        None => Some(0),
        Some(lo) => number_of(lo.as_slice()),
    }
}

/// The greatest number that is not above the end, where that is open or a number.
fn greatest_to(hi: &Option<Bytes>) -> Option<u64>
    ensures { IfSome result (λ n. IsGreatest hi.now n) }
{
    match hi {
        None => Some(u64::MAX),
        Some(hi) => number_of(hi.as_slice()),
    }
}
