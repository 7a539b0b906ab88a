//! A search in flight.
ghost use Rattle.std.specs.Prelude.{◌≡◌, ◌≤◌, ◌<◌, ◌^◌, true, All, IfOk, length};
ghost use Rattle.sk_sorted.specs.Entries.{RiseAbove};
ghost use Rattle.sk_base.specs.Loads.{IsLight};
ghost use Rattle.sk_query.specs.Trees.{query_view};
ghost use Rattle.sk_query.specs.Fits.{is_sound, leaves_of};
ghost use Rattle.sk_model.specs.Counts.{wanted};
ghost use Rattle.sk_reference.specs.Searches.{Stands, Tells, begun, due, turned};

use sk_base::{Doc, DocId, Paging, Report};
use sk_plain::found_by;
use sk_query::Query;
use sk_sharp::report_of;
use std::alloc::{AllocError, Global};
use std::collections::BTreeMap;
use std::marker::Model;

/// A search in flight, on a copy of the documents as they were at its opening. It reads nothing before its end.
/// Contracts see it as what it sought, and how far it came.
#[derive(Debug, Drop)]
pub struct Search {
    paging: Paging,
    query: Query,
    documents: BTreeMap<DocId, Doc>,
    /// How many turns move on.
    due: u64,
    /// How many moved on.
    turns: u64,
    done: bool,
}

impl Model for Search {
    ghost use Rattle.std.specs.Coded.{codes};
    ghost use Rattle.sk_codes.specs.Codes.{coded_tree};
    ghost use Rattle.sk_query.specs.Trees.{query_view};
    ghost use Rattle.sk_report.specs.Flights.{Open};
    ghost use Rattle.sk_reference.specs.Searches.{Keeps};

    ghost Value = { Open };

    ghost coded = { Prim.hlevel (codes, coded_tree) };

    ghost view = { λ s. record { paging = s.paging; query = query_view s.query; documents = s.documents.entries; turns = s.turns; done = s.done; spent = 0 } };

    ghost invariant = { λ s. Keeps s.due (record { paging = s.paging; query = query_view s.query; documents = s.documents.entries; turns = s.turns; done = s.done; spent = 0 }) };
}

impl Search {
    /// A search of this query and page, on these documents.
    pub fn open(
        alloc: Global,
        docs: &BTreeMap<DocId, Doc>,
        query: Query,
        paging: Paging,
    ) -> Result<Search, AllocError>
        requires sound { is_sound 1 (query_view query) ≡ true }
        requires leaves { leaves_of (query_view query) ≤ 1024 }
        requires rising { RiseAbove 0 docs.now.entries }
        requires light { All IsLight docs.now.entries }
        requires few { length docs.now.entries < 2 ^ 32 }
        ensures begun { IfOk result (λ search. search ≡ begun paging (query_view query) docs.now.entries) }
        ensures stands { IfOk result Stands }
    {
        let Ok(due) = due_of(alloc, docs, &query, &paging) else {
            drop(query);
            return Err(AllocError);
        };
        let Ok(documents) = copy_of(alloc, docs) else {
            drop(query);
            return Err(AllocError);
        };
        Ok(Search {
            paging,
            query,
            documents,
            due,
            turns: 0,
            done: false,
        })
    }

    /// So many turns, as far as they move on.
    pub fn turn(&mut self, times: u32)
        requires { 1 ≤ times }
        ensures turned { self.new ≡ turned times self.old }
        ensures stood { Stands self.old }
        ensures stands { Stands self.new }
    {
        let moves = u64::from(times).min(self.due - self.turns);
        self.turns += moves;
        self.done = moves < u64::from(times);
    }

    pub fn is_done(&self) -> bool
        ensures { result ≡ self.now.done }
    {
        self.done
    }

    /// The rank of the first hit that it seeks.
    pub fn first(&self) -> u32
        ensures { result ≡ self.now.paging.options.first }
    {
        self.paging.options.first
    }

    /// Its report. The steps are the most that the rules allow.
    pub fn report(&self, alloc: Global) -> Result<Report, AllocError>
        ensures { IfOk result (Tells self.now) }
    {
        report_of(alloc, &self.documents, &self.query, &self.paging)
    }
}

/// How many turns of a search of this query and page move on, over these documents.
fn due_of(
    alloc: Global,
    docs: &BTreeMap<DocId, Doc>,
    query: &Query,
    paging: &Paging,
) -> Result<u64, AllocError>
    requires sound { is_sound 1 (query_view query.now) ≡ true }
    requires leaves { leaves_of (query_view query.now) ≤ 1024 }
    requires light { All IsLight docs.now.entries }
    ensures { IfOk result (λ turns. turns ≡ due (begun paging.now (query_view query.now) docs.now.entries)) }
{
    let found = found_by(alloc, docs, query, paging)?;
    Ok(wanted(paging).min(found.len() as u64))
}

/// How many matches a find wants to see.
fn wanted(paging: &Paging) -> u64
    ensures { result ≡ wanted paging.now }
{
    let page = u64::from(paging.options.first) + u64::from(paging.options.size);
    page.max(u64::from(paging.options.check))
}

/// The same documents once more.
fn copy_of(alloc: Global, docs: &BTreeMap<DocId, Doc>) -> Result<BTreeMap<DocId, Doc>, AllocError>
    requires { RiseAbove 0 docs.now.entries }
    ensures { IfOk result (λ copy. copy.entries ≡ docs.now.entries) }
{
    let mut copy = BTreeMap::new(alloc);
    'docs: for (id, doc) in docs.iter() {
        let doc = doc.copy(alloc)?;
        copy.insert(*id, doc)?;
    }
    Ok(copy)
}
