//! The bounds of a range.
ghost use Rattle.std.specs.Prelude.{◌≡◌, ◌≢◌, ◌≤◌, IfSome, Some, None, length, true};
ghost use Rattle.std.specs.List.{list_all, slice_get};
ghost use Rattle.std.specs.Char.{is_ascii_digit};
ghost use Rattle.std.specs.Str.Parse.{digits_value};
ghost use Rattle.sk_grammar.specs.Bounds.{halves, is_number, is_number_kind, are_numbers};
ghost use Rattle.sk_grammar.specs.Faults.{takes_numbers};

use sk_base::{Field, FieldKind};

/// The two bounds that a text gives: what stands before its first `..` and behind it, or the text twice.
pub fn halves(text: &str) -> (&str, &str)
    ensures from { result.0.now ≡ (halves text.now).0 }
    ensures to { result.1.now ≡ (halves text.now).1 }
{
    match text.split_once("..") {
        Some((from, to)) => (from, to),
        None => (text, text),
    }
}

fn are_digits(text: &str) -> bool
    ensures { result ≡ list_all is_ascii_digit text.now }
{
    text.as_bytes().iter().all(|b| b.is_ascii_digit())
}

/// Nothing, or digits with a value of 64 bits.
pub(crate) fn is_number(text: &str) -> bool
    ensures { result ≡ is_number text.now }
{
    text.is_empty() || (are_digits(text) && text.parse::<u64>().is_ok())
}

/// The number of a bound that is one.
pub fn number(text: &str) -> u64
    requires number { is_number text.now ≡ true }
    requires some { length text.now ≢ 0 }
    ensures { result ≡ digits_value 10 text.now }
{
    match text.parse::<u64>() {
        Ok(n) => n,
        Err(_) => 0,
    }
}

/// Whether the bounds in a text are numbers, or open.
pub(crate) fn are_numbers(text: &str) -> bool
    ensures { result ≡ are_numbers (halves text.now) }
{
    let (from, to) = halves(text);
    is_number(from) && is_number(to)
}

/// Whether the field at this place is one of numbers.
pub(crate) fn takes_numbers(fields: &[Field], place: usize) -> bool
    ensures { result ≡ takes_numbers (slice_get fields.now place) }
{
    match fields.get(place) {
        Some(field) => matches!(field.kind, FieldKind::Number(_)),
        None => false,
    }
}
