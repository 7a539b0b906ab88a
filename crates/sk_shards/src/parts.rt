//! Documents in several indexes.
ghost use Rattle.std.specs.Prelude.{◌≡◌, ◌≤◌, ◌<◌, ◌+◌, ℕ, true, [], length, All, IfOk, slice_index_or};
ghost use Rattle.sk_base.specs.Commands.{FitsParts};
ghost use Rattle.sk_base.specs.Finds.{FitsPaging};
ghost use Rattle.sk_base.specs.Records.{FitsEdit};
ghost use Rattle.sk_query.specs.Trees.{query_view};
ghost use Rattle.sk_query.specs.Fits.{fits_tree};
ghost use Rattle.sk_model.specs.Edits.{nothing_live, edited, reply_to};
ghost use Rattle.sk_model.specs.Joined.{part_docs};
ghost use Rattle.sk_report.specs.Reports.{ReportsOver};

use crate::forest::Forest;
use sk_base::{DocId, Edit, Paging, Reply, Report, Schema};
use sk_documents::{Documents, Turns};
use sk_index::Index;
use sk_query::Query;
use sk_steps::Steps;
use std::alloc::{AllocError, Global};
use std::fmt::{Debug, Error, Formatter, Write};
use std::marker::Model;
use std::sync::ledger::Ledger;

/// Documents under one schema in several indexes, which take turns: the first document stands in the first, the second in
/// the second, and so on, and round again. They are changed and searched as one. `Debug` tells how many parts there are.
#[derive(Drop)]
pub struct Parts {
    documents: Documents<Turns<Index>>,
}

impl Model for Parts {
    ghost use Rattle.sk_shards.specs.Sharded.{Sharded};

    ghost Value = { Sharded };

    ghost view = { λ p. record { schema = p.documents.schema; live = p.documents.live; indexes = p.documents.keeper.parts } };
}

impl Parts {
    /// So many indexes without documents.
    pub fn new(alloc: Global, schema: Schema, parts: u32) -> Result<Parts, AllocError>
        requires { FitsParts parts }
        ensures schema { IfOk result (λ made. made.schema ≡ schema) }
        ensures live { IfOk result (λ made. made.live ≡ nothing_live) }
        ensures parts { IfOk result (λ made. length made.indexes ≡ parts) }
    {
        let indexes = empty_indexes(alloc, &schema, parts)?;
        Ok(Parts {
            documents: Documents::new(alloc, schema, Turns::new(alloc, indexes)),
        })
    }

    pub fn schema(&self) -> &Schema
        ensures { result.now ≡ self.now.schema }
    {
        self.documents.schema()
    }

    /// The allocator that it keeps.
    pub fn allocator(&self) -> Global {
        self.documents.allocator()
    }

    /// How many parts there are.
    pub fn count(&self) -> u32
        ensures value { result ≡ length self.now.indexes }
        ensures few { FitsParts result }
    {
        self.documents.keeper().parts().len() as u32
    }

    /// A part, by its number from 0. It has its documents under ids of its own.
    pub fn part(&self, i: u32) -> &Index
        requires { i < length self.now.indexes }
        ensures value { result.now ≡ slice_index_or self.now.indexes i result.now }
        ensures documents { result.now.live.documents ≡ part_docs (length self.now.indexes) i self.now.live.documents }
    {
        &self.documents.keeper().parts()[i as usize]
    }

    /// Changes the documents. An addition takes the id behind the highest that was used in any part, and so its part.
    /// Where memory runs out all are given up.
    pub fn apply(self, edit: Edit) -> Result<(Parts, Reply), AllocError>
        requires fits { FitsEdit self.schema edit }
        ensures live { IfOk result (λ p. p.0.live ≡ edited self.schema self.live edit) }
        ensures reply { IfOk result (λ p. p.1 ≡ reply_to self.live edit) }
        ensures schema { IfOk result (λ p. p.0.schema ≡ self.schema) }
        ensures parts { IfOk result (λ p. length p.0.indexes ≡ length self.indexes) }
    {
        let Parts { documents } = self;
        let (documents, reply) = documents.apply(edit)?;
        Ok((Parts { documents }, reply))
    }

    /// The report of a find for a query: the asked page of the documents of all parts that match.
    pub fn find<L: Ledger>(
        &self,
        paging: &Paging,
        query: &Query,
        steps: &mut Steps<L>,
    ) -> Result<Report, AllocError>
        requires fits { fits_tree (query_view query.now) ≡ true }
        requires paging { FitsPaging paging.now }
        ensures report { IfOk result (λ report. ReportsOver (length self.now.indexes) (query_view query.now) paging.now self.now.live.documents report) }
        ensures cost { IfOk result (λ report. steps.new ≡ steps.old + report.steps) }
        ensures later { steps.old ≤ steps.new }
    {
        let indexes = self.documents.keeper().parts();
        let mut forest = Forest::open(self.allocator(), indexes, paging, query, steps)?;
        'turns: loop {
            if !forest.turn(indexes, steps)? {
                return forest.finish(indexes, steps);
            }
        }
    }
}

impl Debug for Parts {
    fn fmt<W: Write>(&self, f: &mut Formatter<W>) -> Result<(), Error> {
        write!(f, "Parts, {}", self.count())
    }
}

/// So many indexes without documents.
fn empty_indexes(alloc: Global, schema: &Schema, parts: u32) -> Result<Vec<Index>, AllocError>
    requires { parts ≤ 16 }
    ensures many { IfOk result (λ indexes. length indexes.items ≡ parts) }
    ensures empty { IfOk result (λ indexes. All (λ i. i.live.documents ≡ []) indexes.items) }
{
    let mut indexes = Vec::new(alloc);
    'parts: for _ in 0..parts {
        let copy = schema.copy(alloc)?;
        let index = Index::new(alloc, copy)?;
        indexes.push(index)?;
    }
    Ok(indexes)
}
