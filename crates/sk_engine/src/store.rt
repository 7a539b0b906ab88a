//! A session as the store of a run.
use crate::Session;
use serde_json::Value;
use sk_base::{Edit, FacetQuery, Facets, Find, FlightCommand, Reply, Report, Schema};
use sk_parser::AskError;
use sk_run::{Response, Store};
use sk_steps::Steps;
use std::alloc::{AllocError, Global};
use std::mem;
use std::sync::ledger::Ledger;

impl Store for Session {
    ghost use Rattle.sk_run.specs.Held.{Held};
    ghost use Rattle.sk_engine.specs.Sessions.{SessionHolds, schema_of, session_conduct};

    ghost under = { schema_of };

    ghost State = { Held };

    ghost holds = { SessionHolds };

    ghost conduct = { session_conduct };

    fn new(alloc: Global, schema: Schema, parts: u32) -> Result<Session, AllocError> {
        Session::new(alloc, schema, parts)
    }

    fn schema(&self) -> &Schema {
        Session::schema(self)
    }

    fn is_in_parts(&self) -> bool {
        Session::is_in_parts(self)
    }

    fn apply(self, edit: Edit) -> Result<(Session, Reply), AllocError> {
        Session::apply(self, edit)
    }

    fn find<L: Ledger>(
        &self,
        find: &Find<Value>,
        steps: &mut Steps<L>,
    ) -> Result<Report, AskError> {
        Session::find(self, find, steps)
    }

    fn facets<L: Ledger>(
        &self,
        wanted: &FacetQuery,
        steps: &mut Steps<L>,
    ) -> Result<Facets, AskError> {
        Session::facets(self, wanted, steps)
    }

    fn fly<L: Ledger>(
        &mut self,
        command: FlightCommand<Value>,
        steps: &mut Steps<L>,
    ) -> Result<Response, AllocError> {
        Session::fly(self, command, steps)
    }

    /// Nothing is taken apart: a run is the last thing that the process does, and the memory goes with that.
    fn close(self, _alloc: Global) -> Result<Response, AllocError> {
        let response = self.still_open();
        mem::forget(self);
        response
    }
}
