//! The rows that a line can fit, with what it gives for them.
use serde_json::Value;
use sk_base::{Join, Options, Text};

/// A field's name and a text of it.
#[derive(Clone, Copy)]
pub struct TextRow<'a> {
    pub field: &'a str,
    pub text: &'a str,
}

/// A values object and a payload, taken out of the line.
#[derive(Drop)]
pub struct RecordRow {
    pub values: Value,
    pub payload: Text,
}

/// The query of a find.
#[derive(Clone, Copy)]
pub enum AskRow<'a> {
    Text(&'a str, Join),
    Tree(&'a Value),
}

/// An order by values.
#[derive(Clone, Copy, Debug, PartialEq, Eq)]
pub enum Sort {
    Value,
    ValueThenRelevance,
    RelevanceThenValue,
}

/// An order, with the name of its field and whether it is in reverse.
#[derive(Clone, Copy)]
pub enum OrderRow<'a> {
    Relevance,
    By(Sort, &'a str, bool),
}

/// Which field is collapsed on, and how many are kept of each value.
#[derive(Clone, Copy)]
pub struct CollapseRow<'a> {
    pub field: &'a str,
    pub max: u32,
}

/// A find with its options.
#[derive(Clone, Copy)]
pub struct FindRow<'a> {
    pub ask: AskRow<'a>,
    pub options: Options,
    pub order: OrderRow<'a>,
    /// Whether ids fall.
    pub falling: bool,
    pub collapse: Option<CollapseRow<'a>>,
}

/// A query text, the field whose values are counted, and how many values are told at the most.
#[derive(Clone, Copy)]
pub struct FacetRow<'a> {
    pub text: &'a str,
    pub join: Join,
    pub field: &'a str,
    pub size: u32,
}

/// What is asked of searches in flight.
#[derive(Clone, Copy)]
pub enum FlightRow<'a> {
    Open(FindRow<'a>),
    /// The number of a search, and how many turns it is given.
    Turn(u64, u32),
    Close(u64),
    Drop(u64),
}

/// A line after the schema, by its row.
#[derive(Drop)]
pub enum Row<'a> {
    Add(RecordRow),
    Replace(u32, RecordRow),
    ReplaceBy(TextRow<'a>, RecordRow),
    Delete(u32),
    DeleteBy(TextRow<'a>),
    Find(FindRow<'a>),
    Show(&'a str, Join),
    Facets(FacetRow<'a>),
    Flight(FlightRow<'a>),
}
