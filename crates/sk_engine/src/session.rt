//! A session: the documents under one schema, in one index or in several.
ghost use Rattle.std.specs.Prelude.{◌≡◌, ◌≤◌, ◌+◌, true, false, IfOk, OnOk};
ghost use Rattle.serde_json.specs.View.{view};
ghost use Rattle.sk_base.specs.declared.facets.Facets.{Facets};
ghost use Rattle.sk_base.specs.declared.report.Report.{Report};
ghost use Rattle.sk_base.specs.Commands.{FitsFacets, FitsFlight, FitsParts, flight_over};
ghost use Rattle.sk_base.specs.Finds.{FitsFind, FitsPaging, ask_over};
ghost use Rattle.sk_base.specs.Records.{FitsEdit};
ghost use Rattle.sk_parser.specs.Asked.{asked, text_asked};
ghost use Rattle.sk_query.specs.Trees.{query_view};
ghost use Rattle.sk_query.specs.Fits.{fits_tree};
ghost use Rattle.sk_run.specs.Asking.{TellsOfQuestion, CountsSteps};
ghost use Rattle.sk_model.specs.Edits.{reply_to};
ghost use Rattle.sk_run.specs.Held.{Held, nothing_held, are_in_parts, edited_held};
ghost use Rattle.sk_run.specs.Lines.{IsReached};
ghost use Rattle.sk_run.specs.Responses.{reads_of};
ghost use Rattle.sk_engine.specs.Sessions.{SessionHolds, schema_of, MayFind, MayCount, MayFly, MayEnd};

use crate::Several;
use crate::flying::fly;
use serde_json::Value;
use sk_base::{
    Edit, FacetQuery, Facets, Find, FlightCommand, Items, Paging, Reply, Report, Schema,
};
use sk_facets::count;
use sk_flight::Flights;
use sk_index::Index;
use sk_match::search;
use sk_parser::{AskError, query_of, text_query};
use sk_query::Query;
use sk_run::Response;
use sk_shards::Parts;
use sk_steps::Steps;
use std::alloc::{AllocError, Global};
use std::sync::ledger::Ledger;

/// The documents under one schema, and what is found in them.
#[derive(Debug, Drop)]
pub enum Session {
    /// They stand in one index. Searches may be in flight.
    One(Flights),
    /// They stand in several, which take turns. No search is in flight.
    Several(Several),
}

impl Session {
    /// A session without documents, which are to stand in so many parts.
    pub fn new(alloc: Global, schema: Schema, parts: u32) -> Result<Session, AllocError>
        requires { FitsParts parts }
        ensures schema { IfOk result (λ session. schema_of session ≡ schema) }
        ensures holds { IfOk result (λ session. SessionHolds session (nothing_held parts)) }
    {
        if parts == 1 {
            let index = Index::new(alloc, schema)?;
            let flights = Flights::new(alloc, index)?;
            return Ok(Session::One(flights));
        }
        let parts = Parts::new(alloc, schema, parts)?;
        Ok(Session::Several(Several { parts }))
    }

    pub fn schema(&self) -> &Schema
        ensures { result.now ≡ schema_of self.now }
    {
        match self {
            Session::One(flights) => flights.index().schema(),
            Session::Several(several) => several.parts.schema(),
        }
    }

    /// Whether the documents stand in several parts.
    pub fn is_in_parts(&self) -> bool
        ensures { (held : Held) → SessionHolds self.now held → result ≡ are_in_parts held }
    {
        matches!(self, Session::Several(_))
    }

    /// The allocator that it keeps.
    fn allocator(&self) -> Global {
        match self {
            Session::One(flights) => flights.index().allocator(),
            Session::Several(several) => several.parts.allocator(),
        }
    }

    /// Changes the documents. Searches in flight stay on those of their opening. Where memory runs out the session is
    /// given up.
    pub fn apply(self, edit: Edit) -> Result<(Session, Reply), AllocError>
        requires { FitsEdit (schema_of self) edit }
        ensures holds { IfOk result (λ p. (held : Held) → SessionHolds self held → SessionHolds p.0 (edited_held (schema_of self) held edit)) }
        ensures reply { IfOk result (λ p. (held : Held) → SessionHolds self held → p.1 ≡ reply_to held.live edit) }
        ensures schema { IfOk result (λ p. schema_of p.0 ≡ schema_of self) }
    {
        match self {
            Session::One(flights) => {
                let (flights, reply) = flights.apply(edit)?;
                Ok((Session::One(flights), reply))
            }
            Session::Several(several) => {
                let Several { parts } = several;
                let (parts, reply) = parts.apply(edit)?;
                Ok((Session::Several(Several { parts }), reply))
            }
        }
    }

    /// The asked page of the documents that the query matches, or why there is none. What is refused takes no step.
    pub fn find<L: Ledger>(
        &self,
        find: &Find<Value>,
        steps: &mut Steps<L>,
    ) -> Result<Report, AskError>
        requires { FitsFind find.now }
        ensures tells { (held : Held) → SessionHolds self.now held → TellsOfQuestion (MayFind held find.now.paging) (asked (schema_of self.now) (ask_over view find.now.ask)) result }
        ensures counts { CountsSteps (λ (report : Report). report.steps) result steps.old steps.new }
    {
        let query = query_of(self.allocator(), self.schema(), &find.ask)?;
        let report = self.search(&find.paging, &query, steps);
        drop(query);
        match report {
            Ok(report) => Ok(report),
            Err(AllocError) => Err(AskError::NoMemory),
        }
    }

    /// The report of a find for a query.
    fn search<L: Ledger>(
        &self,
        paging: &Paging,
        query: &Query,
        steps: &mut Steps<L>,
    ) -> Result<Report, AllocError>
        requires fits { fits_tree (query_view query.now) ≡ true }
        requires paging { FitsPaging paging.now }
        ensures report { IfOk result (λ report. (held : Held) → SessionHolds self.now held → MayFind held paging.now (query_view query.now) report) }
        ensures cost { IfOk result (λ report. steps.new ≡ steps.old + report.steps) }
        ensures later { steps.old ≤ steps.new }
    {
        match self {
            Session::One(flights) => {
                let index = flights.index();
                search(index.allocator(), index, paging, query, steps)
            }
            Session::Several(several) => several.parts.find(paging, query, steps),
        }
    }

    /// How often each value of a slot stands among the documents that the text matches, or why it is no query. What is
    /// refused takes no step. The documents stand in one part.
    pub fn facets<L: Ledger>(
        &self,
        wanted: &FacetQuery,
        steps: &mut Steps<L>,
    ) -> Result<Facets, AskError>
        requires fits { FitsFacets wanted.now }
        requires whole { (held : Held) → SessionHolds self.now held → are_in_parts held ≡ false }
        ensures tells { (held : Held) → SessionHolds self.now held → TellsOfQuestion (MayCount held wanted.now.slot wanted.now.size) (text_asked (schema_of self.now) wanted.now.join wanted.now.text) result }
        ensures counts { CountsSteps (λ (facets : Facets). facets.steps) result steps.old steps.new }
    {
        let Session::One(flights) = self else {
            unreachable!();
        };
        let index = flights.index();
        let alloc = index.allocator();
        let query = text_query(alloc, self.schema(), wanted.join, wanted.text.as_str())?;
        let facets = count(alloc, index, &query, wanted.slot, wanted.size, steps);
        drop(query);
        match facets {
            Ok(facets) => Ok(facets),
            Err(AllocError) => Err(AskError::NoMemory),
        }
    }

    /// What a command on searches in flight is answered. The documents stand in one part. Where memory runs out the
    /// session is only to be dropped.
    pub fn fly<L: Ledger>(
        &mut self,
        command: FlightCommand<Value>,
        steps: &mut Steps<L>,
    ) -> Result<Response, AllocError>
        requires fits { FitsFlight command }
        requires whole { (held : Held) → SessionHolds self.old held → are_in_parts held ≡ false }
        ensures flies { IfOk result (λ answer. (held : Held) → SessionHolds self.old held → IsReached SessionHolds (MayFly (schema_of self.old) held (flight_over view command) answer) self.new) }
        ensures schema { OnOk result (schema_of self.new ≡ schema_of self.old) }
        ensures cost { IfOk result (λ answer. steps.new ≡ steps.old + reads_of answer) }
        ensures later { steps.old ≤ steps.new }
    {
        let Session::One(flights) = self else {
            unreachable!();
        };
        fly(flights, command, steps)
    }

    /// The searches that are still open, as a run tells of them at its end.
    pub(crate) fn still_open(&self) -> Result<Response, AllocError>
        ensures ends { IfOk result (λ answer. (held : Held) → SessionHolds self.now held → MayEnd (schema_of self.now) held answer) }
        ensures free { IfOk result (λ answer. reads_of answer ≡ 0) }
    {
        match self {
            Session::One(flights) => Ok(Response::StillOpen(Items::from_vec(flights.readings()?))),
            Session::Several(several) => {
                Ok(Response::StillOpen(Items::new(several.parts.allocator())))
            }
        }
    }
}
