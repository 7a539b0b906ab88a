//! What a shelf answers where searches in flight are asked for.
ghost use Rattle.std.specs.Prelude.{◌≡◌, ◌≤◌, ◌+◌, true, IfOk, OnOk};
ghost use Rattle.serde_json.specs.View.{view};
ghost use Rattle.sk_base.specs.Commands.{FitsTurns};
ghost use Rattle.sk_base.specs.Finds.{FitsFind, ask_over};
ghost use Rattle.sk_query.specs.Trees.{query_view};
ghost use Rattle.sk_query.specs.Fits.{is_sound, leaves_of};
ghost use Rattle.sk_report.specs.Flights.{owed};
ghost use Rattle.sk_parser.specs.Asked.{asked};
ghost use Rattle.sk_run.specs.Held.{OpensFor, OpensHeld, TurnsHeld, ClosesHeld, DropsHeld};
ghost use Rattle.sk_run.specs.Responses.{reads_of, steps_of};
ghost use Rattle.sk_reference.specs.Searches.{Stands, Tells};
ghost use Rattle.sk_reference.specs.Shelved.{held_by};

use crate::search::Search;
use crate::shelf::Shelf;
use crate::store::count;
use serde_json::Value;
use sk_base::{Find, Paging};
use sk_parser::query_of;
use sk_query::Query;
use sk_run::{Refusal, Response, refused};
use sk_steps::Steps;
use std::alloc::{AllocError, Global};
use std::sync::ledger::Ledger;

/// How many searches may be open.
const MOST_OPEN: usize = 64;

impl Shelf {
    /// Opens a search of what a find asks for, unless that is no query. It reads nothing.
    pub(crate) fn open(&mut self, find: &Find<Value>) -> Result<Response, AllocError>
        requires { FitsFind find.now }
        ensures opens { IfOk result (λ answer. OpensFor Stands Tells find.now.paging (asked self.old.schema (ask_over view find.now.ask)) (held_by self.old) answer (held_by self.new)) }
        ensures schema { self.new.schema ≡ self.old.schema }
        ensures unread { owed self.new.flights ≡ owed self.old.flights }
        ensures free { IfOk result (λ answer. reads_of answer ≡ 0) }
        ensures told { IfOk result (λ answer. steps_of answer ≡ 0) }
    {
        let alloc = self.allocator();
        match query_of(alloc, self.schema(), &find.ask) {
            Ok(query) => self.open_query(alloc, query, find.paging),
            Err(why) => refused(why),
        }
    }

    /// Opens a search of a query, unless as many are open as may be.
    fn open_query(
        &mut self,
        alloc: Global,
        query: Query,
        paging: Paging,
    ) -> Result<Response, AllocError>
        requires sound { is_sound 1 (query_view query) ≡ true }
        requires leaves { leaves_of (query_view query) ≤ 1024 }
        ensures opens { IfOk result (λ answer. OpensHeld Stands Tells paging (query_view query) (held_by self.old) answer (held_by self.new)) }
        ensures schema { self.new.schema ≡ self.old.schema }
        ensures unread { owed self.new.flights ≡ owed self.old.flights }
        ensures free { IfOk result (λ answer. reads_of answer ≡ 0) }
        ensures told { IfOk result (λ answer. steps_of answer ≡ 0) }
    {
        if self.flights.count() >= MOST_OPEN {
            drop(query);
            return Ok(Response::Refused(Refusal::TooManyOpen));
        }
        let search = Search::open(alloc, self.documents(), query, paging)?;
        let number = self.flights.open(search)?;
        Ok(Response::Opened(number, 0))
    }

    /// So many turns of the search with this number, as far as they move on. They read nothing.
    pub(crate) fn turn(&mut self, number: u64, times: u32) -> Response
        requires { FitsTurns times }
        ensures turns { TurnsHeld Stands Tells number times (held_by self.old) result (held_by self.new) }
        ensures schema { self.new.schema ≡ self.old.schema }
        ensures unread { owed self.new.flights ≡ owed self.old.flights }
        ensures free { reads_of result ≡ 0 }
        ensures told { steps_of result ≡ 0 }
    {
        match self.flights.turn(number, times) {
            Some(done) => Response::Turned(number, done, 0),
            None => Response::Refused(Refusal::NotOpen),
        }
    }

    /// Ends the search with this number, which is done, by its report. The steps of the report are counted.
    pub(crate) fn close_search<L: Ledger>(
        &mut self,
        number: u64,
        steps: &mut Steps<L>,
    ) -> Result<Response, AllocError>
        ensures closes { IfOk result (λ answer. ClosesHeld Stands Tells number (held_by self.old) answer (held_by self.new)) }
        ensures schema { self.new.schema ≡ self.old.schema }
        ensures unread { owed self.new.flights ≡ owed self.old.flights }
        ensures cost { IfOk result (λ answer. steps.new ≡ steps.old + reads_of answer) }
        ensures told { IfOk result (λ answer. steps_of answer ≡ reads_of answer) }
        ensures later { steps.old ≤ steps.new }
    {
        let Some(search) = self.flights.get(number) else {
            return Ok(Response::Refused(Refusal::NotOpen));
        };
        if !search.is_done() {
            return Ok(Response::Refused(Refusal::NotDone));
        }
        let first = search.first();
        let report = search.report(self.allocator())?;
        drop(self.flights.remove(number));
        let all = report.steps;
        count(all, steps);
        Ok(Response::Closed(first, report, all))
    }

    /// Ends the search with this number, done or not.
    #[tactic(auto, using(crate::proofs::HeldLaws::drops_none))]
    pub(crate) fn drop_search(&mut self, number: u64) -> Response
        ensures drops { DropsHeld Stands Tells number (held_by self.old) result (held_by self.new) }
        ensures schema { self.new.schema ≡ self.old.schema }
        ensures unread { owed self.new.flights ≡ owed self.old.flights }
        ensures free { reads_of result ≡ 0 }
        ensures told { steps_of result ≡ 0 }
    {
        match self.flights.remove(number) {
            Some(_) => Response::Dropped(number, 0),
            None => Response::Refused(Refusal::NotOpen),
        }
    }
}
