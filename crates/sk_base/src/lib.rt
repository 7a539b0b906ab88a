//! The types that all crates share: texts, schemas, records and edits, documents, finds, ranks and reports.
#![tactic(auto)]

mod bytes;
mod command;
mod doc;
mod doc_entry;
mod doc_lists;
mod facets;
mod find;
mod fitting;
mod items;
mod limits;
mod operands;
mod positions;
mod rank;
mod record;
mod report;
mod schema;
mod stats;
mod term;
mod text;

pub use bytes::Bytes;
pub use command::{Command, FlightCommand, Question};
pub use doc::Doc;
pub use doc_entry::{DocTerm, SlotValue};
pub use doc_lists::{DocTerms, SlotValues};
pub use facets::{Facet, FacetList, FacetQuery, Facets, ValueKind};
pub use find::{
    Ask, Collapse, Find, Join, Options, Paging, Scheme, default_options, default_paging,
};
pub use items::Items;
pub use limits::{MOST_FIELDS, MOST_HITS, MOST_LEAVES, MOST_PARTS, MOST_TERM, MOST_TEXT, MOST_WDF};
pub use operands::Operands;
pub use positions::Positions;
pub use rank::{Order, OrderBy, Rank, SortKey, total_order};
pub use record::{Edit, Entries, Entry, FieldValue, Record, Reply};
pub use report::{Hits, Ranked, Report};
pub use schema::{Field, FieldKind, Schema};
pub use stats::Stats;
pub use term::{into_prefixed, number_bytes, prefixed};
pub use text::{Term, Text, Texts};

/// The number of a document, from 1.
pub type DocId = u32;

/// What a document scores for a query.
pub type Weight = u128;
