//! Whether an edit fits a schema.
ghost use Rattle.std.specs.Prelude.{◌≡◌, ◌↔◌, ◌≤◌, IsTrue, nat_le, true};
ghost use Rattle.std.specs.List.{list_all};
ghost use Rattle.sk_base.specs.Records.{fits_kind, fits_field, fits_entry, bytes_of_texts, bytes_of_value, bytes_of_values, most_bytes, FitsValues, FitsEdit};
ghost use Rattle.sk_base.specs.Fitting.{follow, fit};
ghost use Rattle.sk_base.specs.Rooms.{room_behind};

use crate::{Edit, Entry, Field, FieldKind, FieldValue, MOST_TEXT, Schema, Text};

impl Edit {
    /// Whether the edit's record fits the schema, and its id is one: what a change of documents asks for.
    pub fn fits(&self, schema: &Schema) -> bool
        ensures { IsTrue result ↔ FitsEdit schema.now self.now }
    {
        match self {
            Edit::Add(given) => values_fit(schema.fields(), given.values.as_slice()),
            Edit::Replace(id, given) => {
                *id >= 1 && values_fit(schema.fields(), given.values.as_slice())
            }
            Edit::ReplaceBy(_, given) => values_fit(schema.fields(), given.values.as_slice()),
            Edit::Delete(id) => *id >= 1,
            Edit::DeleteBy(_) => true,
        }
    }
}

/// Whether the values stand by rising place, each is of its field's kind, and their texts are not too long.
fn values_fit(fields: &[Field], values: &[Entry]) -> bool
    ensures { IsTrue result ↔ FitsValues fields.now values.now }
{
    fit(fields, values)
}

fn fit(fields: &[Field], values: &[Entry]) -> bool
    ensures { result ≡ fit fields.now values.now }
{
    follow(values) && fit_fields(fields, values) && left_behind(values, MOST_TEXT).is_some()
}

fn fit_fields(fields: &[Field], values: &[Entry]) -> bool
    ensures { result ≡ list_all (fits_entry fields.now) values.now }
{
    values.iter().all(|entry| fits_entry(fields, entry))
}

/// Whether the places rise.
fn follow(values: &[Entry]) -> bool
    ensures { result ≡ follow 0 values.now }
{
    let mut last: Option<usize> = None;
    'values: for entry in values {
        if let Some(place) = last {
            if entry.field <= place {
                return false;
            }
        }
        last = Some(entry.field);
    }
    true
}

/// Whether the entry's place is that of a field of its kind.
fn fits_entry(fields: &[Field], entry: &Entry) -> bool
    ensures { result ≡ fits_entry fields.now entry.now }
{
    match fields.get(entry.field) {
        Some(field) => fits_kind(&field.kind, &entry.value),
        None => false,
    }
}

fn fits_kind(kind: &FieldKind, value: &FieldValue) -> bool
    ensures { result ≡ fits_kind kind.now value.now }
{
    match (kind, value) {
        (FieldKind::Text(_, _), FieldValue::Text(_)) => true,
        (FieldKind::Filter(_), FieldValue::Filter(_)) => true,
        (FieldKind::Number(_), FieldValue::Number(_)) => true,
        (FieldKind::Word(_), FieldValue::Word(_)) => true,
        _ => false,
    }
}

/// What is left of a room behind the texts of the values, and none where they do not fit.
fn left_behind(values: &[Entry], room: usize) -> Option<usize>
    ensures { result ≡ room_behind room (bytes_of_values values.now) }
{
    let mut left = room;
    'values: for entry in values {
        left = behind_value(&entry.value, left)?;
    }
    Some(left)
}

fn behind_value(value: &FieldValue, room: usize) -> Option<usize>
    ensures { result ≡ room_behind room (bytes_of_value value.now) }
{
    match value {
        FieldValue::Text(text) => room.checked_sub(text.as_str().len()),
        FieldValue::Filter(texts) => behind_texts(texts.as_slice(), room),
        FieldValue::Number(_) => Some(room),
        FieldValue::Word(text) => room.checked_sub(text.as_str().len()),
    }
}

fn behind_texts(texts: &[Text], room: usize) -> Option<usize>
    ensures { result ≡ room_behind room (bytes_of_texts texts.now) }
{
    let mut left = room;
    'texts: for text in texts {
        left = left.checked_sub(text.as_str().len())?;
    }
    Some(left)
}
