//! A search from its opening to its report.
ghost use Rattle.std.specs.Prelude.{◌≡◌, ◌≤◌, ◌+◌, true, IfOk};
ghost use Rattle.sk_query.specs.Trees.{query_view};
ghost use Rattle.sk_query.specs.Fits.{fits_tree};
ghost use Rattle.sk_report.specs.Reports.{ReportsFor};
ghost use Rattle.sk_base.specs.Finds.{FitsPaging};

use crate::open_search::{Search, Turn};
use sk_base::{Paging, Report};
use sk_index::Index;
use sk_query::Query;
use sk_steps::Steps;
use std::alloc::{AllocError, Global};
use std::sync::ledger::Ledger;

/// The report of a find for a query: a search that is opened, turned until it is done, and finished.
pub fn search<L: Ledger>(
    alloc: Global,
    index: &Index,
    paging: &Paging,
    query: &Query,
    steps: &mut Steps<L>,
) -> Result<Report, AllocError>
    requires fits { fits_tree (query_view query.now) ≡ true }
    requires paging { FitsPaging paging.now }
    ensures report { IfOk result (λ report. ReportsFor (query_view query.now) paging.now index.now.live.documents report) }
    ensures cost { IfOk result (λ report. steps.new ≡ steps.old + report.steps) }
    ensures later { steps.old ≤ steps.new }
{
    let mut search = Search::open(alloc, index, paging, query, steps)?;
    'turns: loop {
        match search.stride(index, steps) {
            Ok(Turn::More) => {}
            Ok(Turn::Done) => return search.finish(index, steps),
            Err(fault) => {
                drop(search);
                return Err(fault);
            }
        }
    }
}
