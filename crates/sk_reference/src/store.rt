//! A shelf as the store of a run.
ghost use Rattle.std.specs.Prelude.{◌≡◌, ◌≤◌, ◌+◌, true, IfOk};
ghost use Rattle.sk_query.specs.Trees.{query_view};
ghost use Rattle.sk_query.specs.Fits.{is_sound, leaves_of};
ghost use Rattle.sk_reference.specs.Shelved.{Finds, held_by};

use crate::shelf::Shelf;
use serde_json::Value;
use sk_base::{Edit, FacetQuery, Facets, Find, FlightCommand, Paging, Reply, Report, Schema};
use sk_parser::{AskError, query_of, text_query};
use sk_query::Query;
use sk_run::{Response, Store};
use sk_sharp::{facets_of, report_in_parts, report_of};
use sk_steps::Steps;
use std::alloc::{AllocError, Global};
use std::sync::ledger::Ledger;

impl Store for Shelf {
    ghost use Rattle.sk_run.specs.Held.{Held};
    ghost use Rattle.sk_reference.specs.Shelved.{holds, schema_of, shelf_conduct};

    ghost under = { schema_of };

    ghost State = { Held };

    ghost holds = { holds };

    ghost conduct = { shelf_conduct };

    fn new(alloc: Global, schema: Schema, parts: u32) -> Result<Shelf, AllocError> {
        Ok(Shelf::new(alloc, schema, parts))
    }

    fn schema(&self) -> &Schema {
        Shelf::schema(self)
    }

    fn is_in_parts(&self) -> bool {
        self.parts() > 1
    }

    fn apply(self, edit: Edit) -> Result<(Shelf, Reply), AllocError> {
        Shelf::apply(self, edit)
    }

    /// The steps of the report are the most that the rules allow.
    fn find<L: Ledger>(
        &self,
        find: &Find<Value>,
        steps: &mut Steps<L>,
    ) -> Result<Report, AskError> {
        let alloc = self.allocator();
        let query = query_of(alloc, Shelf::schema(self), &find.ask)?;
        let report = self.report(alloc, &query, &find.paging);
        drop(query);
        match report {
            Ok(report) => {
                count(report.steps, steps);
                Ok(report)
            }
            Err(AllocError) => Err(AskError::NoMemory),
        }
    }

    /// The steps of the facets are the most that the rules allow.
    fn facets<L: Ledger>(
        &self,
        wanted: &FacetQuery,
        steps: &mut Steps<L>,
    ) -> Result<Facets, AskError> {
        let alloc = self.allocator();
        let schema = Shelf::schema(self);
        let query = text_query(alloc, schema, wanted.join, wanted.text.as_str())?;
        let facets = facets_of(alloc, self.documents(), &query, wanted.slot, wanted.size);
        drop(query);
        match facets {
            Ok(facets) => {
                count(facets.steps, steps);
                Ok(facets)
            }
            Err(AllocError) => Err(AskError::NoMemory),
        }
    }

    /// No search reads anything before its end.
    #[tactic(auto, using(crate::proofs::HeldLaws::flies))]
    fn fly<L: Ledger>(
        &mut self,
        command: FlightCommand<Value>,
        steps: &mut Steps<L>,
    ) -> Result<Response, AllocError> {
        match command {
            FlightCommand::Open(find) => self.open(&find),
            FlightCommand::Turn(number, times) => Ok(self.turn(number, times)),
            FlightCommand::Close(number) => self.close_search(number, steps),
            FlightCommand::Drop(number) => Ok(self.drop_search(number)),
        }
    }

    #[tactic(auto, using(crate::proofs::HeldLaws::ends))]
    fn close(self, alloc: Global) -> Result<Response, AllocError> {
        let readings = self.flights.readings(alloc)?;
        Ok(Response::StillOpen(readings))
    }
}

impl Shelf {
    /// The report of a find, by the number of parts.
    fn report(&self, alloc: Global, query: &Query, paging: &Paging) -> Result<Report, AllocError>
        requires sound { is_sound 1 (query_view query.now) ≡ true }
        requires leaves { leaves_of (query_view query.now) ≤ 1024 }
        ensures { IfOk result (λ report. Finds (held_by self.now) paging.now (query_view query.now) report) }
    {
        let parts = self.parts();
        if parts == 1 {
            return report_of(alloc, self.documents(), query, paging);
        }
        report_in_parts(alloc, self.documents(), parts, query, paging)
    }
}

/// Counts so many steps.
pub(crate) fn count<L: Ledger>(all: u128, steps: &mut Steps<L>)
    ensures { steps.new ≡ steps.old + all }
{
    'all: for _ in 0..all {
        steps.tick();
    }
}
