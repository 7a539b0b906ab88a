//! Documents of one text.
use sk_base::{Edit, Entry, Field, FieldKind, FieldValue, Items, Record, Schema, Text};
use sk_index::Index;
use std::alloc::{AllocError, Global};

/// An index of documents with one text.
pub(crate) fn empty_index(alloc: Global) -> Result<Index, AllocError> {
    let mut fields = Vec::new(alloc);
    fields.push(Field {
        name: Text::new(alloc, "body")?,
        kind: FieldKind::Text(Text::empty(alloc), 1),
    })?;
    let Some(schema) = Schema::check(fields, false) else {
        return Err(AllocError);
    };
    Index::new(alloc, schema)
}

/// A record of one text.
fn record(alloc: Global, text: &[u8]) -> Result<Record, AllocError> {
    let text = String::from_utf8_lossy(alloc, text)?;
    let mut values = Items::new(alloc);
    values.push(Entry {
        field: 0,
        value: FieldValue::Text(Text::new(alloc, text.as_str())?),
    })?;
    Ok(Record {
        values,
        payload: Text::empty(alloc),
    })
}

/// The index with a document of this text.
pub(crate) fn add(alloc: Global, index: Index, text: &[u8]) -> Result<Index, AllocError> {
    let Ok(record) = record(alloc, text) else {
        drop(index);
        return Err(AllocError);
    };
    let edit = Edit::Add(record);
    if !edit.fits(index.schema()) {
        drop(index);
        return Err(AllocError);
    }
    let (index, _) = index.apply(edit)?;
    Ok(index)
}
