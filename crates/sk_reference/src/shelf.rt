//! The live documents, as a plain map, and the searches in flight.
ghost use Rattle.std.specs.Prelude.{◌≡◌, ◌<◌, ◌^◌, [], length, All, IfOk};
ghost use Rattle.sk_sorted.specs.Entries.{RiseAbove};
ghost use Rattle.sk_base.specs.Commands.{FitsParts};
ghost use Rattle.sk_base.specs.Records.{FitsEdit};
ghost use Rattle.sk_base.specs.Documents.{has_term};
ghost use Rattle.sk_base.specs.Loads.{IsLight};
ghost use Rattle.sk_model.specs.Edits.{nothing_live, edited, reply_to};
ghost use Rattle.sk_report.specs.Flights.{none_open};

use crate::flights::Flights;
use sk_base::{Doc, DocId, Edit, Reply, Schema};
use sk_documents::{Documents, Keeper};
use std::alloc::{AllocError, Global};
use std::collections::BTreeMap;
use std::marker::Model;

/// Documents as they are: those that have a term are looked for among all.
#[derive(Debug, Drop)]
struct PlainMap {
    alloc: Global,
    map: BTreeMap<DocId, Doc>,
}

impl PlainMap {
    fn new(alloc: Global) -> PlainMap
        ensures { result.map.entries ≡ [] }
    {
        PlainMap {
            alloc,
            map: BTreeMap::new(alloc),
        }
    }
}

impl Keeper for PlainMap {
    ghost documents = { λ kept. kept.map.entries };

    fn count(&self) -> usize {
        self.map.len()
    }

    fn put(self, id: DocId, doc: Doc) -> Result<PlainMap, AllocError> {
        let mut kept = self;
        kept.map.insert(id, doc)?;
        Ok(kept)
    }

    fn remove(&mut self, id: DocId) -> bool {
        self.map.remove(&id).is_some()
    }

    fn ids_with(&mut self, term: &[u8]) -> Result<Vec<DocId>, AllocError> {
        self.map
            .iter()
            .filter(|(_, doc)| has_term(doc, term))
            .map(|(id, _)| *id)
            .collect(self.alloc)
    }
}

/// The live documents under one schema, as a plain map, in how many parts they stand, and the searches in flight.
/// Contracts see it as what it holds.
#[derive(Debug, Drop)]
pub struct Shelf {
    documents: Documents<PlainMap>,
    parts: u32,
    pub(crate) flights: Flights,
}

impl Model for Shelf {
    ghost use Rattle.std.specs.Coded.{codes};
    ghost use Rattle.sk_base.specs.Commands.{FitsParts};
    ghost use Rattle.sk_codes.specs.Codes.{coded_tree};
    ghost use Rattle.sk_reference.specs.Shelved.{Shelved};

    ghost Value = { Shelved };

    ghost coded = { Prim.hlevel (codes, coded_tree) };

    ghost view = { λ s. record { schema = s.documents.schema; live = s.documents.live; parts = s.parts; flights = s.flights } };

    ghost invariant = { λ s. FitsParts s.parts };
}

impl Shelf {
    /// A shelf without documents.
    pub fn new(alloc: Global, schema: Schema, parts: u32) -> Shelf
        requires { FitsParts parts }
        ensures { result ≡ record { schema = schema; live = nothing_live; parts = parts; flights = none_open } }
    {
        Shelf {
            documents: Documents::new(alloc, schema, PlainMap::new(alloc)),
            parts,
            flights: Flights::new(alloc),
        }
    }

    pub fn schema(&self) -> &Schema
        ensures { result.now ≡ self.now.schema }
    {
        self.documents.schema()
    }

    /// The allocator that it keeps.
    pub fn allocator(&self) -> Global {
        self.documents.allocator()
    }

    /// In how many parts the documents stand.
    pub fn parts(&self) -> u32
        ensures value { result ≡ self.now.parts }
        ensures few { FitsParts result }
    {
        self.parts
    }

    /// The live documents.
    pub fn documents(&self) -> &BTreeMap<DocId, Doc>
        ensures value { result.now.entries ≡ self.now.live.documents }
        ensures rising { RiseAbove 0 result.now.entries }
        ensures light { All IsLight result.now.entries }
        ensures few { length result.now.entries < 2 ^ 32 }
    {
        &self.documents.keeper().map
    }

    /// Changes the documents, and no search in flight. Where memory runs out the shelf is given up.
    pub fn apply(self, edit: Edit) -> Result<(Shelf, Reply), AllocError>
        requires fits { FitsEdit self.schema edit }
        ensures live { IfOk result (λ p. p.0.live ≡ edited self.schema self.live edit) }
        ensures reply { IfOk result (λ p. p.1 ≡ reply_to self.live edit) }
        ensures schema { IfOk result (λ p. p.0.schema ≡ self.schema) }
        ensures parts { IfOk result (λ p. p.0.parts ≡ self.parts) }
        ensures flights { IfOk result (λ p. p.0.flights ≡ self.flights) }
    {
        let Shelf {
            documents,
            parts,
            flights,
        } = self;
        let (documents, reply) = documents.apply(edit)?;
        Ok((
            Shelf {
                documents,
                parts,
                flights,
            },
            reply,
        ))
    }
}

/// Whether the document has the term.
fn has_term(doc: &Doc, term: &[u8]) -> bool
    ensures { result ≡ has_term term.now doc.now.terms }
{
    doc.terms
        .as_slice()
        .iter()
        .any(|one| one.term.as_str().as_bytes() == term)
}
