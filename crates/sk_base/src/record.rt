//! Records, the edits that bring them, and the replies to edits.
use crate::{DocId, Items, Term, Text, Texts};

/// The values of a document as they were given.
#[derive(Debug, Drop)]
pub struct Record {
    pub values: Entries,
    /// A text that is handed back with a hit.
    pub payload: Text,
}

/// The value of one field: its place in the schema, from 0, and what was given for it.
#[derive(Debug, Drop)]
pub struct Entry {
    pub field: usize,
    pub value: FieldValue,
}

/// The values of a record, by rising place of the field.
pub type Entries = Items<Entry>;

/// What was given for a field, by the field's kind.
#[derive(Debug, Drop)]
pub enum FieldValue {
    Text(Text),
    Filter(Texts),
    Number(u64),
    Word(Text),
}

/// A change of the documents.
#[derive(Debug, Drop)]
pub enum Edit {
    /// A new document, under the next id.
    Add(Record),
    /// A document in the place of the one with this id, or as a new one.
    Replace(DocId, Record),
    /// A document in the place of the first that has the term; the others that have it are removed. As `Add` where none has it.
    ReplaceBy(Term, Record),
    /// Removes the document with this id.
    Delete(DocId),
    /// Removes all documents that have the term.
    DeleteBy(Term),
}

/// What an edit answers.
#[derive(Clone, Copy, Debug, PartialEq, Eq)]
pub enum Reply {
    /// The document has this id.
    Id(DocId),
    /// So many documents were removed.
    Done(u32),
    /// No live document has the id, and nothing was changed.
    NotFound,
    /// The greatest id was used before, and nothing was changed.
    NoIdLeft,
}
