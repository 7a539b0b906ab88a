//! An open search.
ghost use Rattle.std.specs.Prelude.{◌≡◌, ◌≤◌, ◌+◌, true, IfOk, OnOk};
ghost use Rattle.sk_base.specs.Finds.{FitsPaging};
ghost use Rattle.sk_query.specs.Trees.{query_view};
ghost use Rattle.sk_query.specs.Fits.{fits_tree};
ghost use Rattle.sk_report.specs.Flights.{MayBeOpen, Begins, Turned};
ghost use Rattle.sk_report.specs.Reports.{ReportsFor};
ghost use Rattle.sk_match.specs.Searches.{spent_by};
ghost use Rattle.sk_flight.specs.Kept.{IsFlight, Moves, open_of};
ghost use Rattle.sk_flight.specs.Told.{was_done};

use sk_base::{Paging, Report};
use sk_index::Index;
use sk_match::{Search, Turn};
use sk_query::Query;
use sk_steps::Steps;
use std::alloc::{AllocError, Global};
use std::rc::Rc;
use std::sync::ledger::Ledger;

/// An open search: what it seeks, and the documents as they were at its opening.
#[derive(Drop)]
pub struct Flight {
    paging: Paging,
    query: Query,
    revision: Rc<Index>,
    search: Search,
    /// How many turns moved on.
    turns: u64,
    /// Whether the last turn was done.
    is_done: bool,
}

impl Flight {
    pub(crate) fn open<L: Ledger>(
        alloc: Global,
        revision: Rc<Index>,
        paging: Paging,
        query: Query,
        steps: &mut Steps<L>,
    ) -> Result<Flight, AllocError>
        requires fits { fits_tree (query_view query) ≡ true }
        requires paging { FitsPaging paging }
        ensures flight { IfOk result IsFlight }
        ensures begins { IfOk result (λ flight. Begins MayBeOpen paging (query_view query) revision.value.live.documents (open_of flight)) }
        ensures cost { IfOk result (λ flight. steps.new ≡ steps.old + spent_by flight.search) }
        ensures later { steps.old ≤ steps.new }
    {
        let Ok(search) = Search::open(alloc, revision.as_ref(), &paging, &query, steps) else {
            drop(query);
            return Err(AllocError);
        };
        let flight = Flight {
            paging,
            query,
            revision,
            search,
            turns: 0,
            is_done: false,
        };
        if flight.search.spent() == u128::MAX {
            drop(flight);
            return Err(AllocError);
        }
        Ok(flight)
    }

    /// So many turns, or fewer where one is done: the last of them. Where memory runs out it is only to be dropped.
    pub(crate) fn turns<L: Ledger>(
        &mut self,
        times: u32,
        steps: &mut Steps<L>,
    ) -> Result<Turn, AllocError>
        requires flight { IsFlight self.old }
        requires some { 1 ≤ times }
        ensures flight { OnOk result (IsFlight self.new) }
        ensures turned { OnOk result (Turned MayBeOpen times (open_of self.old) (open_of self.new)) }
        ensures ended { IfOk result (λ turn. self.new.is_done ≡ was_done turn) }
        ensures cost { OnOk result (steps.new + spent_by self.old.search ≡ steps.old + spent_by self.new.search) }
        ensures later { steps.old ≤ steps.new }
    {
        'turns: for _ in 0..times {
            match self.turn(steps)? {
                Turn::More => {}
                Turn::Done => return Ok(Turn::Done),
            }
        }
        Ok(Turn::More)
    }

    /// One turn. Where memory runs out it is only to be dropped.
    fn turn<L: Ledger>(&mut self, steps: &mut Steps<L>) -> Result<Turn, AllocError>
        requires { IsFlight self.old }
        ensures flight { OnOk result (IsFlight self.new) }
        ensures moves { IfOk result (λ turn. Moves (open_of self.old) (open_of self.new) turn) }
        ensures cost { OnOk result (steps.new + spent_by self.old.search ≡ steps.old + spent_by self.new.search) }
        ensures later { steps.old ≤ steps.new }
    {
        let turn = self.search.turn(self.revision.as_ref(), steps)?;
        if self.search.spent() == u128::MAX {
            return Err(AllocError);
        }
        match turn {
            Turn::More => {
                self.turns += 1;
                self.is_done = false;
            }
            Turn::Done => self.is_done = true,
        }
        Ok(turn)
    }

    /// The report of one that is done, with the page that it was opened for.
    pub(crate) fn finish<L: Ledger>(
        self,
        steps: &mut Steps<L>,
    ) -> Result<(Paging, Report), AllocError>
        requires flight { IsFlight self }
        requires done { self.is_done ≡ true }
        ensures paging { IfOk result (λ p. p.0 ≡ self.paging) }
        ensures report { IfOk result (λ p. ReportsFor (query_view self.query) self.paging self.revision.value.live.documents p.1) }
        ensures cost { IfOk result (λ p. steps.new + spent_by self.search ≡ steps.old + p.1.steps) }
        ensures later { steps.old ≤ steps.new }
    {
        let Flight {
            paging,
            query,
            revision,
            search,
            ..
        } = self;
        drop(query);
        let report = search.finish(revision.as_ref(), steps)?;
        Ok((paging, report))
    }

    pub(crate) fn is_done(&self) -> bool
        ensures { result ≡ self.now.is_done }
    {
        self.is_done
    }

    /// The readings since its opening, and with it.
    pub(crate) fn spent(&self) -> u128
        requires { IsFlight self.now }
        ensures { result ≡ spent_by self.now.search }
    {
        self.search.spent()
    }
}
