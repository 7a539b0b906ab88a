//! What a run changes and searches.
ghost use Rattle.std.specs.Prelude.{◌≡◌, ◌≤◌, ◌+◌, false, IfOk, OnOk};
ghost use Rattle.sk_base.specs.declared.schema.Schema.{Schema};
ghost use Rattle.serde_json.specs.View.{view};
ghost use Rattle.sk_base.specs.declared.facets.Facets.{Facets};
ghost use Rattle.sk_base.specs.declared.report.Report.{Report};
ghost use Rattle.sk_base.specs.Commands.{FitsFacets, FitsFlight, FitsParts, flight_over};
ghost use Rattle.sk_base.specs.Finds.{FitsFind, ask_over};
ghost use Rattle.sk_base.specs.Records.{FitsEdit};
ghost use Rattle.sk_parser.specs.Asked.{asked, text_asked};
ghost use Rattle.sk_run.specs.Conducts.{Conduct};
ghost use Rattle.sk_run.specs.Asking.{TellsOfQuestion, CountsSteps};
ghost use Rattle.sk_run.specs.Lines.{IsReached};
ghost use Rattle.sk_run.specs.Responses.{reads_of};

use crate::Response;
use serde_json::Value;
use sk_base::{Edit, FacetQuery, Facets, Find, FlightCommand, Reply, Report, Schema};
use sk_parser::AskError;
use sk_steps::Steps;
use std::alloc::{AllocError, Global};
use std::sync::ledger::Ledger;

/// Documents under one schema, and what else a run keeps under it.
pub trait Store: Drop {
    // The schema that it is under.
    ghost under: { Self → Schema };

    // Its states under a schema.
    ghost State: { Type 0 };

    // It holds this state.
    ghost holds: { Self → State → Type 0 };

    // What it may do, by its states.
    ghost conduct: { Conduct State };

    /// A store without documents, which are to stand in so many parts.
    fn new(alloc: Global, schema: Schema, parts: u32) -> Result<Self, AllocError>
        requires { FitsParts parts }
        ensures schema { IfOk result (λ store. under store ≡ schema) }
        ensures holds { IfOk result (λ store. holds store (conduct.begun parts)) };

    fn schema(&self) -> &Schema
        ensures { result.now ≡ under self.now };

    /// Whether its documents stand in several parts.
    fn is_in_parts(&self) -> bool
        ensures { (s : State) → holds self.now s → result ≡ conduct.in_parts s };

    /// Changes the documents. Where memory runs out the store is given up.
    fn apply(self, edit: Edit) -> Result<(Self, Reply), AllocError>
        requires { FitsEdit (under self) edit }
        ensures edits { IfOk result (λ p. (s : State) → holds self s → IsReached holds (conduct.edits (under self) s edit p.1) p.0) }
        ensures schema { IfOk result (λ p. under p.0 ≡ under self) };

    /// The report of a find, or why there is none. The counter rises by the steps of the report.
    fn find<L: Ledger>(&self, find: &Find<Value>, steps: &mut Steps<L>) -> Result<Report, AskError>
        requires { FitsFind find.now }
        ensures tells { (s : State) → holds self.now s → TellsOfQuestion (conduct.finds s find.now.paging) (asked (under self.now) (ask_over view find.now.ask)) result }
        ensures counts { CountsSteps (λ (report : Report). report.steps) result steps.old steps.new };

    /// How often each value stands among the matches of a text, or why it is no query. The counter rises by the steps
    /// of the answer. The documents stand in one part.
    fn facets<L: Ledger>(
        &self,
        wanted: &FacetQuery,
        steps: &mut Steps<L>,
    ) -> Result<Facets, AskError>
        requires fits { FitsFacets wanted.now }
        requires whole { (s : State) → holds self.now s → conduct.in_parts s ≡ false }
        ensures tells { (s : State) → holds self.now s → TellsOfQuestion (conduct.facets s wanted.now.slot wanted.now.size) (text_asked (under self.now) wanted.now.join wanted.now.text) result }
        ensures counts { CountsSteps (λ (facets : Facets). facets.steps) result steps.old steps.new };

    /// What is answered where searches in flight are asked for. The documents stand in one part.
    fn fly<L: Ledger>(
        &mut self,
        command: FlightCommand<Value>,
        steps: &mut Steps<L>,
    ) -> Result<Response, AllocError>
        requires fits { FitsFlight command }
        requires whole { (s : State) → holds self.old s → conduct.in_parts s ≡ false }
        ensures flies { IfOk result (λ answer. (s : State) → holds self.old s → IsReached holds (conduct.flies (under self.old) s (flight_over view command) answer) self.new) }
        ensures schema { OnOk result (under self.new ≡ under self.old) }
        ensures cost { IfOk result (λ answer. steps.new ≡ steps.old + reads_of answer) }
        ensures later { steps.old ≤ steps.new };

    /// What is put at the end of a run. It is no reading.
    fn close(self, alloc: Global) -> Result<Response, AllocError>
        ensures closes { IfOk result (λ answer. (s : State) → holds self s → conduct.closes (under self) s answer) }
        ensures free { IfOk result (λ answer. reads_of answer ≡ 0) };
}
