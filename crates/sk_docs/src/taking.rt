//! Takes the values of a record in the order of the schema.
ghost use Rattle.std.specs.Prelude.{◌≡◌, ◌<◌, ◌+◌, ℕ};
ghost use Rattle.std.specs.Option.{option_copied};
ghost use Rattle.sk_model.specs.Documents.{value_at};
ghost use Rattle.sk_docs.specs.Taken.{StandFrom};

use sk_base::{Entry, FieldValue};

/// The value that is given for the field at this place, and the entries behind it. All stand at this place or behind.
pub fn taken(place: usize, values: &[Entry]) -> (Option<&FieldValue>, &[Entry])
    requires stand { StandFrom place values.now }
    ensures value { option_copied result.0 ≡ value_at place values.now }
    ensures stand { StandFrom (place + 1) result.1.now }
    ensures same { (later : ℕ) → place < later → value_at later result.1.now ≡ value_at later values.now }
{
    match values.split_first() {
        Some((first, rest)) if first.field == place => (Some(&first.value), rest),
        _ => (None, values),
    }
}
