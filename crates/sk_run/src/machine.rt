//! The state of a run: a store, once a schema was accepted.
ghost use Rattle.std.specs.Prelude.{◌≡◌, ◌≤◌, ◌+◌, false, IfOk, OnOk, OnErr, Some, None};
ghost use Rattle.std.specs.Option.{option_copied};
ghost use Rattle.sk_base.specs.declared.command.Command.TheVariants as Command;
ghost use Rattle.serde_json.specs.View.{view};
ghost use Rattle.sk_base.specs.Commands.{FitsFlight, FitsParts, command_over, flight_over};
ghost use Rattle.sk_record.specs.Outcome.{MayCome};
ghost use Rattle.sk_run.specs.declared.request.Request.TheVariants as Request;
ghost use Rattle.sk_base.specs.Records.{FitsEdit};
ghost use Rattle.sk_run.specs.Responses.{reads_of};
ghost use Rattle.sk_run.specs.Conducts.{State, Closes};
ghost use Rattle.sk_run.specs.Machines.{MachineStands, schema_in, schema_behind, Did, Obeyed};
ghost use Rattle.sk_run.specs.Requests.{MayBeAsked, AnsweredRequest, may_read, schema_after};

use crate::asking::answer_question;
use crate::request::Request;
use crate::response::response_to;
use crate::{Refusal, Response, Store};
use serde_json::Value;
use sk_base::{Command, Edit, FlightCommand, Join, Schema};
use sk_steps::Steps;
use std::alloc::{AllocError, Global};
use std::sync::ledger::Ledger;

/// How lines are read.
#[derive(Clone, Copy, Debug, PartialEq, Eq)]
pub enum Reading {
    /// Each is a command.
    Commands,
    /// Each is a query text, whose words are joined so.
    Queries(Join),
}

/// The store of a run, once a schema was accepted.
#[derive(Drop)]
pub struct Machine<M: Drop> {
    store: Option<M>,
}

impl<M: Store> Machine<M> {
    /// A machine that waits for a schema.
    pub fn new() -> Machine<M>
        ensures { MachineStands M.under M.holds result None }
    {
        Machine { store: None }
    }

    /// Answers what a line asks for. Where memory runs out the machine is given up.
    pub(crate) fn answer<L: Ledger>(
        self,
        alloc: Global,
        request: Request,
        steps: &mut Steps<L>,
    ) -> Result<(Machine<M>, Response), AllocError>
        requires { MayBeAsked (schema_in M.under self) request }
        ensures answered { IfOk result (λ p. AnsweredRequest M.under M.holds M.conduct self request p.1 p.0) }
        ensures schema { IfOk result (λ p. schema_in M.under p.0 ≡ schema_after (schema_in M.under self) request) }
        ensures cost { IfOk result (λ p. steps.new ≡ steps.old + reads_of p.1) }
        ensures later { steps.old ≤ steps.new }
        ensures still { OnErr result (may_read request ≡ false → steps.new ≡ steps.old) }
    {
        match request {
            Request::Blank => Ok((self, Response::Skipped)),
            Request::Refused(why) => Ok((self, Response::Refused(why))),
            Request::Asks(command) => self.obey(alloc, command, steps),
        }
    }

    /// What is put behind the answers of all lines. It is no reading.
    pub(crate) fn close(self, alloc: Global) -> Result<Response, AllocError>
        ensures closes { IfOk result (λ answer. (s : State M.State) → MachineStands M.under M.holds self s → Closes M.conduct s answer) }
        ensures free { IfOk result (λ answer. reads_of answer ≡ 0) }
    {
        match self.store {
            Some(store) => store.close(alloc),
            None => Ok(Response::Skipped),
        }
    }

    pub(crate) fn schema(&self) -> Option<&Schema>
        ensures { option_copied result ≡ schema_in M.under self.now }
    {
        match &self.store {
            Some(store) => Some(store.schema()),
            None => None,
        }
    }

    /// Obeys a command that may come.
    fn obey<L: Ledger>(
        self,
        alloc: Global,
        command: Command<Value>,
        steps: &mut Steps<L>,
    ) -> Result<(Machine<M>, Response), AllocError>
        requires { MayCome (schema_in M.under self) command }
        ensures obeyed { IfOk result (λ p. Obeyed M.under M.holds M.conduct self.store (command_over view command) p.1 p.0) }
        ensures schema { IfOk result (λ p. schema_in M.under p.0 ≡ schema_behind (schema_in M.under self) command) }
        ensures cost { IfOk result (λ p. steps.new ≡ steps.old + reads_of p.1) }
        ensures later { steps.old ≤ steps.new }
        ensures still { OnErr result (may_read (Request.Asks command) ≡ false → steps.new ≡ steps.old) }
    {
        match (self.store, command) {
            (None, Command::Schema(schema, parts)) => {
                let (machine, response) = accept_schema(alloc, schema, parts)?;
                Ok((machine, response))
            }
            (Some(store), command) => {
                let (store, response) = obey(alloc, store, command, steps)?;
                Ok((Machine { store: Some(store) }, response))
            }
            _ => unreachable!(),
        }
    }
}

/// The first store, under its schema.
fn accept_schema<M: Store>(
    alloc: Global,
    schema: Schema,
    parts: u32,
) -> Result<(Machine<M>, Response), AllocError>
    requires { FitsParts parts }
    ensures obeyed { IfOk result (λ p. Obeyed M.under M.holds M.conduct None (Command.Schema schema parts) p.1 p.0) }
    ensures schema { IfOk result (λ p. schema_in M.under p.0 ≡ Some schema) }
    ensures cost { IfOk result (λ p. reads_of p.1 ≡ 0) }
{
    let fields = schema.fields().len();
    let store = M::new(alloc, schema, parts)?;
    Ok((Machine { store: Some(store) }, Response::Schema(fields)))
}

/// What a store does with a command, which is no schema.
fn obey<M: Store, L: Ledger>(
    alloc: Global,
    store: M,
    command: Command<Value>,
    steps: &mut Steps<L>,
) -> Result<(M, Response), AllocError>
    requires { MayCome (Some (M.under store)) command }
    ensures did { IfOk result (λ p. Did M.under M.holds M.conduct store (command_over view command) p.1 p.0) }
    ensures schema { IfOk result (λ p. M.under p.0 ≡ M.under store) }
    ensures cost { IfOk result (λ p. steps.new ≡ steps.old + reads_of p.1) }
    ensures later { steps.old ≤ steps.new }
    ensures still { OnErr result (may_read (Request.Asks command) ≡ false → steps.new ≡ steps.old) }
{
    match command {
        Command::Schema(_, _) => unreachable!(),
        Command::Edit(edit) => apply(store, edit),
        Command::Ask(question) => {
            let response = answer_question(alloc, &store, &question, steps);
            drop(question);
            Ok((store, response?))
        }
        Command::Flight(command) => {
            let mut store = store;
            let response = fly(&mut store, command, steps)?;
            Ok((store, response))
        }
    }
}

/// Changes the documents of a store.
fn apply<M: Store>(store: M, edit: Edit) -> Result<(M, Response), AllocError>
    requires { FitsEdit (M.under store) edit }
    ensures did { IfOk result (λ p. Did M.under M.holds M.conduct store (Command.Edit edit) p.1 p.0) }
    ensures schema { IfOk result (λ p. M.under p.0 ≡ M.under store) }
    ensures cost { IfOk result (λ p. reads_of p.1 ≡ 0) }
{
    let (store, reply) = store.apply(edit)?;
    Ok((store, response_to(reply)))
}

/// What is answered where searches in flight are asked for: where documents stand in several parts it is refused.
fn fly<M: Store, L: Ledger>(
    store: &mut M,
    command: FlightCommand<Value>,
    steps: &mut Steps<L>,
) -> Result<Response, AllocError>
    requires { FitsFlight command }
    ensures did { IfOk result (λ answer. Did M.under M.holds M.conduct store.old (Command.Flight (flight_over view command)) answer store.new) }
    ensures schema { OnOk result (M.under store.new ≡ M.under store.old) }
    ensures cost { IfOk result (λ answer. steps.new ≡ steps.old + reads_of answer) }
    ensures later { steps.old ≤ steps.new }
{
    if store.is_in_parts() {
        return Ok(Response::Refused(Refusal::InParts));
    }
    store.fly(command, steps)
}
