//! Searches in flight: what each of their commands is answered.
ghost use Rattle.std.specs.Prelude.{◌≡◌, ◌≤◌, ◌+◌, ◌<◌, ◌^◌, true, IfOk, OnOk};
ghost use Rattle.serde_json.specs.View.{view};
ghost use Rattle.sk_base.specs.declared.command.FlightCommand.TheVariants as FlightCommand;
ghost use Rattle.sk_base.specs.Commands.{FitsFlight, FitsTurns, flight_over};
ghost use Rattle.sk_base.specs.Finds.{FitsFind, FitsPaging, find_over};
ghost use Rattle.sk_query.specs.Trees.{query_view};
ghost use Rattle.sk_query.specs.Fits.{fits_tree};
ghost use Rattle.sk_report.specs.Flights.{MayBeOpen, owed};
ghost use Rattle.sk_flight.specs.Told.{Tells, was_done};
ghost use Rattle.sk_run.specs.Held.{OpensHeld};
ghost use Rattle.sk_run.specs.Responses.{reads_of, steps_of};
ghost use Rattle.sk_engine.specs.Sessions.{held_by, MayFly};

use serde_json::Value;
use sk_base::{Find, FlightCommand, Paging};
use sk_flight::{Finish, Flights, Opened};
use sk_match::Turn;
use sk_parser::query_of;
use sk_query::Query;
use sk_run::{Refusal, Response, refused};
use sk_steps::Steps;
use std::alloc::AllocError;
use std::sync::ledger::Ledger;

/// What a command on searches in flight is answered. Where memory runs out nothing is said of the searches.
pub(crate) fn fly<L: Ledger>(
    flights: &mut Flights,
    command: FlightCommand<Value>,
    steps: &mut Steps<L>,
) -> Result<Response, AllocError>
    requires { FitsFlight command }
    ensures flies { IfOk result (λ answer. MayFly flights.old.newest.schema (held_by flights.old) (flight_over view command) answer (held_by flights.new)) }
    ensures newest { OnOk result (flights.new.newest ≡ flights.old.newest) }
    ensures cost { IfOk result (λ answer. steps.new ≡ steps.old + reads_of answer) }
    ensures later { steps.old ≤ steps.new }
{
    match command {
        FlightCommand::Open(find) => open_search(flights, find, steps),
        FlightCommand::Turn(number, times) => turn_search(flights, number, times, steps),
        FlightCommand::Close(number) => close_search(flights, number, steps),
        FlightCommand::Drop(number) => drop_search(flights, number),
    }
}

/// Opens a search of this find, or says why not: first that there is no query.
fn open_search<L: Ledger>(
    flights: &mut Flights,
    find: Find<Value>,
    steps: &mut Steps<L>,
) -> Result<Response, AllocError>
    requires { FitsFind find }
    ensures flies { IfOk result (λ answer. MayFly flights.old.newest.schema (held_by flights.old) (FlightCommand.Open (find_over view find)) answer (held_by flights.new)) }
    ensures newest { OnOk result (flights.new.newest ≡ flights.old.newest) }
    ensures cost { IfOk result (λ answer. steps.new ≡ steps.old + reads_of answer) }
    ensures later { steps.old ≤ steps.new }
{
    let Find { ask, paging } = find;
    let index = flights.index();
    let asked = query_of(index.allocator(), index.schema(), &ask);
    drop(ask);
    match asked {
        Ok(query) => open_query(flights, paging, query, steps),
        Err(why) => refused(why),
    }
}

/// Opens a search of this query, or says that as many are open as may be.
fn open_query<L: Ledger>(
    flights: &mut Flights,
    paging: Paging,
    query: Query,
    steps: &mut Steps<L>,
) -> Result<Response, AllocError>
    requires fits { fits_tree (query_view query) ≡ true }
    requires paging { FitsPaging paging }
    ensures opens { IfOk result (λ answer. OpensHeld MayBeOpen Tells paging (query_view query) (held_by flights.old) answer (held_by flights.new)) }
    ensures paid { IfOk result (λ answer. owed flights.new.flights + steps_of answer ≡ owed flights.old.flights + reads_of answer) }
    ensures newest { OnOk result (flights.new.newest ≡ flights.old.newest) }
    ensures cost { IfOk result (λ answer. steps.new ≡ steps.old + reads_of answer) }
    ensures later { steps.old ≤ steps.new }
{
    if flights.opened() == u64::MAX {
        drop(query);
        return Err(AllocError);
    }
    match flights.open(paging, query, steps)? {
        Opened::Number(number) => match flights.spent(number) {
            Some(reads) => Ok(Response::Opened(number, reads)),
            None => unreachable!(),
        },
        Opened::Full => Ok(Response::Refused(Refusal::TooManyOpen)),
    }
}

/// So many turns of the search with this number, or that it is not open.
fn turn_search<L: Ledger>(
    flights: &mut Flights,
    number: u64,
    times: u32,
    steps: &mut Steps<L>,
) -> Result<Response, AllocError>
    requires { FitsTurns times }
    ensures flies { IfOk result (λ answer. MayFly flights.old.newest.schema (held_by flights.old) (FlightCommand.Turn number times) answer (held_by flights.new)) }
    ensures newest { OnOk result (flights.new.newest ≡ flights.old.newest) }
    ensures cost { IfOk result (λ answer. steps.new ≡ steps.old + reads_of answer) }
    ensures later { steps.old ≤ steps.new }
{
    let Some(before) = flights.spent(number) else {
        return Ok(Response::Refused(Refusal::NotOpen));
    };
    let Some(turn) = flights.turns(number, times, steps)? else {
        unreachable!();
    };
    let Some(after) = flights.spent(number) else {
        unreachable!();
    };
    Ok(Response::Turned(number, is_done(turn), after - before))
}

fn is_done(turn: Turn) -> bool
    ensures { result ≡ was_done turn }
{
    matches!(turn, Turn::Done)
}

/// The report of the search with this number, or that it is not open or not done.
fn close_search<L: Ledger>(
    flights: &mut Flights,
    number: u64,
    steps: &mut Steps<L>,
) -> Result<Response, AllocError>
    ensures flies { IfOk result (λ answer. MayFly flights.old.newest.schema (held_by flights.old) (FlightCommand.Close number) answer (held_by flights.new)) }
    ensures newest { OnOk result (flights.new.newest ≡ flights.old.newest) }
    ensures cost { IfOk result (λ answer. steps.new ≡ steps.old + reads_of answer) }
    ensures later { steps.old ≤ steps.new }
{
    let Some(spent) = flights.spent(number) else {
        return Ok(Response::Refused(Refusal::NotOpen));
    };
    match flights.finish(number, steps)? {
        Finish::NotOpen => Ok(Response::Refused(Refusal::NotOpen)),
        Finish::NotDone => Ok(Response::Refused(Refusal::NotDone)),
        Finish::Found(paging, report) => {
            let reads = report.steps - spent;
            Ok(Response::Closed(paging.options.first, report, reads))
        }
    }
}

/// The readings of the search with this number, which is dropped, or that it is not open.
fn drop_search(flights: &mut Flights, number: u64) -> Result<Response, AllocError>
    ensures flies { IfOk result (λ answer. MayFly flights.old.newest.schema (held_by flights.old) (FlightCommand.Drop number) answer (held_by flights.new)) }
    ensures newest { flights.new.newest ≡ flights.old.newest }
    ensures free { IfOk result (λ answer. reads_of answer ≡ 0) }
{
    match flights.abandon(number) {
        Some(spent) => Ok(Response::Dropped(number, spent)),
        None => Ok(Response::Refused(Refusal::NotOpen)),
    }
}
