//! The last number that is wanted in an order of values.
ghost use Rattle.std.specs.Prelude.{◌≡◌, ◌≢◌, ℕ, List, length, true, false, IfSome, IfNone};
ghost use Rattle.sk_model.specs.Ranges.{is_within};
ghost use Rattle.sk_values.specs.Behind.{is_behind, AreSpans, AreBehind};
ghost use Rattle.sk_values.specs.Numbers.{IsNumber};

use crate::bounds::Bounds;
use crate::range::number_of;
use crate::span::Span;
use crate::value::Value;

/// A number, and whether the lesser ones come behind it and not the greater.
#[derive(Clone, Copy)]
pub(crate) struct Edge {
    number: u64,
    reverse: bool,
}

/// The numbers in a range, and those of them that do not come behind an edge.
#[derive(Clone, Copy)]
pub(crate) struct Spans {
    range: Span,
    wanted: Span,
}

impl Edge {
    /// None where the value is no number.
    pub fn new(last: &[u8], reverse: bool) -> Option<Edge>
        ensures edge { IfSome result (λ e. IsNumber e.number last.now × (e.reverse ≡ reverse)) }
        ensures none { IfNone result (length last.now ≢ 8) }
    {
        let number = number_of(last)?;
        Some(Edge { number, reverse })
    }

    /// Whether a value is a number that comes behind it.
    #[inline]
    pub fn is_before(&self, value: &Value) -> bool
        ensures { result ≡ true → (last : List ℕ) → IsNumber self.now.number last → is_behind self.now.reverse last value.now ≡ true }
    {
        match value.number() {
            Some(number) => if self.reverse {
                number < self.number
            } else {
                self.number < number
            },
            None => false,
        }
    }

    /// None where an end of the range is neither open nor a number, or all numbers in it come behind the edge.
    pub fn spans(&self, bounds: &Bounds) -> Option<Spans>
        ensures { IfSome result (λ s. AreSpans self.now.number self.now.reverse bounds.now.lo bounds.now.hi s) }
    {
        let (least, greatest) = bounds.numbers()?;
        let range = Span::new(least, greatest)?;
        let wanted = if self.reverse {
            Span::new(least.max(self.number), greatest)?
        } else {
            Span::new(least, greatest.min(self.number))?
        };
        Some(Spans { range, wanted })
    }

    /// The numbers in the range that come behind it. None where there is none, or an end of the range is neither open nor a
    /// number.
    pub fn behind(&self, bounds: &Bounds) -> Option<Span>
        ensures { IfSome result (λ s. AreBehind self.now.number self.now.reverse bounds.now.lo bounds.now.hi s) }
    {
        let (least, greatest) = bounds.numbers()?;
        if self.reverse {
            Span::new(least, greatest.min(self.number.checked_sub(1)?))
        } else {
            Span::new(least.max(self.number.checked_add(1)?), greatest)
        }
    }
}

/// Whether a value lies in the range, and whether it does and is not told to come behind the edge.
#[inline]
pub(crate) fn sift(
    value: &Value,
    bounds: &Bounds,
    edge: &Edge,
    spans: &Option<Spans>,
) -> (bool, bool)
    requires { IfSome spans.now (λ s. AreSpans edge.now.number edge.now.reverse bounds.now.lo bounds.now.hi s) }
    ensures within { result.0 ≡ is_within bounds.now.lo bounds.now.hi value.now }
    ensures wanted { result.1 ≡ true → result.0 ≡ true }
    ensures behind { result.0 ≡ true → result.1 ≡ false
        → (last : List ℕ) → IsNumber edge.now.number last → is_behind edge.now.reverse last value.now ≡ true }
{
    match (spans, value.number()) {
        (Some(spans), Some(n)) => (spans.range.has(n), spans.wanted.has(n)),
        _ => {
            let is_in = bounds.contains(value);
            (is_in, is_in && !edge.is_before(value))
        }
    }
}
