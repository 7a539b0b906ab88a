//! What a command line asks for.
use crate::{Edit, FacetQuery, Find, Join, Schema, Text};

/// What is asked of the documents, which stay as they are.
#[derive(Debug, Drop)]
pub enum Question<T> {
    Find(Find<T>),
    /// The query of a text.
    Show(Text, Join),
    /// How often each value of a field stands among all matches.
    Facets(FacetQuery),
}

/// What is asked of searches in flight, each of which has a number.
#[derive(Debug, Drop)]
pub enum FlightCommand<T> {
    /// Opens a search of this find, on the documents as they are.
    Open(Find<T>),
    /// So many turns of a search, and no more behind one that is done.
    Turn(u64, u32),
    /// The report of a search that is done, which ends it.
    Close(u64),
    /// Ends a search, done or not.
    Drop(u64),
}

/// A command line that was understood, with query trees of the type `T`.
#[derive(Debug, Drop)]
pub enum Command<T> {
    /// A schema, and in how many parts the documents under it stand.
    Schema(Schema, u32),
    Edit(Edit),
    Ask(Question<T>),
    Flight(FlightCommand<T>),
}
