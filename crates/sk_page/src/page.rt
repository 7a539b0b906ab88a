//! What a search keeps of the matches that it saw.
ghost use Rattle.std.specs.Prelude.{◌≡◌, ◌≤◌, ◌<◌, ◌+◌, ◌-◌, ◌^◌, ℕ, List, [], true, min, IfOk, IsOk, OnOk, IfSome, None};
ghost use Rattle.sk_base.specs.Finds.{FitsPaging};
ghost use Rattle.sk_base.specs.declared.rank.OrderBy.TheVariants as OrderBy;
ghost use Rattle.sk_base.specs.declared.rank.Rank as RankView;
ghost use Rattle.sk_model.specs.Allowance.{key_readings, value_readings};
ghost use Rattle.sk_model.specs.Counts.{wanted_by};
ghost use Rattle.sk_page.specs.Hits.{kept_count};
ghost use Rattle.sk_page.specs.Needs.{is_settled, is_whole, need_for};
ghost use Rattle.sk_page.specs.Pages.{CollapsesBy};
ghost use Rattle.sk_page.specs.Views.{OpensPage, MaySee, Sees, IsEdge, MayReport, Reports};

use crate::hits::hits_of;
use crate::offer::show;
use crate::reader::{Reader, key_of, value_of};
use sk_base::{Collapse, DocId, Options, Order, OrderBy, Paging, Report, SortKey, Weight};
use sk_collapse::Collapser;
use sk_heap::ResultHeap;
use sk_steps::Steps;
use std::alloc::{AllocError, Global};
use std::sync::ledger::Ledger;

/// The best of the matches that a search saw, and how many it saw.
#[derive(Drop)]
pub struct Page {
    alloc: Global,
    options: Options,
    order: Order,
    collapse: Option<Collapse>,
    heap: ResultHeap,
    collapser: Option<Collapser>,
    /// How many matches it saw.
    seen: u32,
    /// The readings of keys and values.
    read: u64,
}

/// Bounds on all that matches.
#[derive(Clone, Copy)]
pub struct Bounds {
    /// No document weighs more.
    pub greatest: Weight,
    /// No more documents match.
    pub most: u128,
}

impl Page {
    /// A page that saw nothing. It has all the room for hits that it ever needs.
    pub fn open(alloc: Global, paging: &Paging) -> Result<Page, AllocError>
        requires { FitsPaging paging.now }
        ensures { IfOk result (OpensPage paging.now) }
    {
        let options = paging.options;
        Ok(Page {
            alloc,
            options,
            order: paging.order,
            collapse: paging.collapse,
            heap: ResultHeap::reserve(alloc, options.first + options.size, paging.order)?,
            collapser: collapser_of(alloc, paging.collapse, paging.order),
            seen: 0,
            read: 0,
        })
    }

    /// Sees a match, with its key and its value. Without memory the page is only to be dropped.
    pub fn see<R: Reader, L: Ledger>(
        &mut self,
        reader: &R,
        id: DocId,
        weight: Weight,
        steps: &mut Steps<L>,
    ) -> Result<(), AllocError>
        requires { MaySee self.old id weight }
        ensures sees { OnOk result (Sees (R.documents reader.now) id weight self.old self.new) }

        // Without keys and values it takes no memory.
        ensures free { self.old.collapse ≡ None → self.old.collapser ≡ None → self.old.order.by ≡ OrderBy.Relevance → IsOk result }
        ensures cost { OnOk result (steps.new + self.old.read ≡ steps.old + self.new.read) }
        ensures later { steps.old ≤ steps.new }
    {
        let value = value_of(reader, self.order.by, id, steps);
        let key = key_of(reader, self.collapse, id, steps);
        show(
            self.alloc,
            &mut self.heap,
            &mut self.collapser,
            id,
            weight,
            value,
            key,
        )?;
        self.seen += 1;
        self.read += readings(self.order.by, self.collapse);
        Ok(())
    }

    /// Where nothing is collapsed and the page goes by value first, the key of its order and the value of its worst hit, once it
    /// is full: a match whose value comes behind that changes nothing but how many were seen.
    pub fn edge(&self) -> Option<(SortKey, &[u8])>
        ensures { IfSome result (λ e. IsEdge self.now e.0 e.1.now) }
    {
        if self.collapser.is_some() {
            return None;
        }
        self.heap.edge()
    }

    /// Sees so many matches that change nothing else, and of which nothing more is read.
    pub fn count_in(&mut self, count: u32)
        ensures { self.new ≡ record self.old { seen = min (2 ^ 32 - 1) (self.old.seen + count) } }
    {
        self.seen = self.seen.saturating_add(count);
    }

    /// The least weight of a match.
    pub fn cutoff(&self) -> Weight
        ensures { result ≡ self.now.options.cutoff }
    {
        self.options.cutoff
    }

    /// Whether nothing that is left can change the page, if it weighs no more than this.
    pub fn is_settled(&self, ceiling: Weight) -> bool
        ensures { result ≡ is_settled self.now.options self.now.seen self.now.heap ceiling }
    {
        let is_above = match self.heap.need() {
            Some(need) => ceiling < need,
            None => true,
        };
        ceiling < self.options.cutoff || self.wanted() <= u64::from(self.seen) && is_above
    }

    /// Whether a search that is done saw all that matches: it never asked for more than the cutoff, and nothing is left, or
    /// nothing that weighs as much as that.
    pub fn is_whole(&self, need: Weight, is_ended: bool, ceiling: Weight) -> bool
        ensures { result ≡ is_whole self.now.options need is_ended ceiling }
    {
        need <= self.options.cutoff && (is_ended || ceiling < self.options.cutoff)
    }

    fn wanted(&self) -> u64
        ensures { result ≡ wanted_by self.now.options }
    {
        let Options {
            first,
            size,
            check,
            ..
        } = self.options;
        u64::from(check).max(u64::from(first) + u64::from(size))
    }

    /// What a tree is asked for, if nothing that it has left weighs more than this: the cutoff, until enough matches were
    /// seen, and then what the page needs.
    pub fn need(&self, ceiling: Weight) -> Weight
        requires { ceiling < 2 ^ 127 }
        ensures { result ≡ need_for self.now.options self.now.seen self.now.heap ceiling }
    {
        if u64::from(self.seen) < self.wanted() {
            return self.options.cutoff;
        }
        match self.heap.need() {
            Some(need) => need.max(self.options.cutoff),
            None => ceiling + 1,
        }
    }

    /// The report of a search that is done, after so many readings of lists. Whether it saw all that matches is told.
    pub fn report<R: Reader, L: Ledger>(
        self,
        reader: &R,
        bounds: Bounds,
        is_whole: bool,
        spent: u128,
        steps: &mut Steps<L>,
    ) -> Result<Report, AllocError>
        requires { MayReport self bounds.most is_whole }
        ensures report { IfOk result (Reports (R.documents reader.now) self bounds is_whole spent) }
        ensures cost { IfOk result (λ report. steps.new + (spent + self.read) ≡ steps.old + report.steps) }
        ensures later { steps.old ≤ steps.new }
    {
        let lower = kept_count(&self.collapser, self.seen);
        let upper = if is_whole {
            lower
        } else {
            (bounds.most - u128::from(self.seen - lower)) as u32
        };
        let held = self.heap.drain_sorted();
        let page = &held[held.len().min(self.options.first as usize)..];
        let hits = hits_of(self.alloc, reader, &self.collapser, page, steps)?;
        let beside = u128::from(self.read) + hits.as_slice().len() as u128;
        let Some(all) = spent.checked_add(beside) else {
            return Err(AllocError);
        };
        Ok(Report {
            hits,
            lower,
            estimate: lower + (upper - lower) / 2,
            upper,
            greatest: bounds.greatest,
            steps: all,
        })
    }

    /// The readings of keys and values.
    pub fn read(&self) -> u64
        ensures { result ≡ self.now.read }
    {
        self.read
    }
}

/// A collapser for a find that collapses.
fn collapser_of(alloc: Global, collapse: Option<Collapse>, order: Order) -> Option<Collapser>
    requires { IfSome collapse (λ c. 1 ≤ c.max) }
    ensures { (key : RankView.Rank → List ℕ) → CollapsesBy collapse order key [] result }
{
    match collapse {
        Some(collapse) => Some(Collapser::new(alloc, collapse.max, order)),
        None => None,
    }
}

/// How many matches are kept of so many that were seen: all where nothing is collapsed.
fn kept_count(collapser: &Option<Collapser>, seen: u32) -> u32
    ensures { result ≡ kept_count collapser.now seen }
{
    match collapser {
        Some(collapser) => collapser.kept(),
        None => seen,
    }
}

/// The readings of a match: of its value and of its key, where they are read.
fn readings(by: OrderBy, collapse: Option<Collapse>) -> u64
    ensures { result ≡ value_readings by 1 + key_readings collapse 1 }
{
    let value = match by {
        OrderBy::Relevance => 0,
        _ => 1,
    };
    let key = match collapse {
        Some(_) => 1,
        None => 0,
    };
    value + key
}
