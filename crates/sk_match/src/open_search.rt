//! A search: its matches one by one, and its report.
ghost use Rattle.std.specs.Prelude.{◌≡◌, ◌≤◌, ◌<◌, ◌+◌, ◌-◌, ◌^◌, ℕ, List, min, true, length, IfOk, IsOk, None, Some, is_none, if◌then◌else◌};
ghost use Rattle.sk_base.specs.declared.find.Paging.{Paging};
ghost use Rattle.sk_base.specs.declared.rank.OrderBy.TheVariants as OrderBy;
ghost use Rattle.sk_query.specs.Trees as QueryTree;
ghost use Rattle.sk_query.specs.Trees.{query_view};
ghost use Rattle.sk_query.specs.Fits.{fits_tree};
ghost use Rattle.sk_sorted.specs.Entries.{first_id};
ghost use Rattle.sk_base.specs.Finds.{FitsPaging};
ghost use Rattle.sk_report.specs.Reports.{ReportsFor};
ghost use Rattle.sk_index.specs.Indexed.{Indexed};
ghost use Rattle.sk_model.specs.Counts.{wanted};
ghost use Rattle.sk_model.specs.Matches.{found_by};
ghost use Rattle.sk_model.specs.Sharp.{is_plain, flat_lists, sharp};
ghost use Rattle.sk_tree.specs.Built.{scored, IsTree};
ghost use Rattle.sk_page.specs.Needs.{is_whole};
ghost use Rattle.sk_report.specs.Paces.{IsEarly};
ghost use Rattle.sk_match.specs.Paces.{ups_seen};
ghost use Rattle.sk_match.specs.Searches.{IsOn, Stands, Asks, PassesUnseen, PassesFar, MovesPast, Looks, ahead, left_to_stop, is_done, spent_by};
ghost use Rattle.sk_match.specs.declared.open_search.Turn.TheVariants as Turn;

use crate::reader::IndexReader;
use sk_base::{DocId, Paging, Report, Weight};
use sk_index::Index;
use sk_page::{Bounds, Page};
use sk_query::Query;
use sk_steps::Steps;
use sk_tree::Tree;
use sk_weight::{ceil, static_count};
use std::alloc::{AllocError, Global};
use std::sync::ledger::Ledger;

/// A search that was opened: its tree, and the page of the matches that it has seen.
#[derive(Drop)]
pub struct Search {
    tree: Tree,
    /// The last need that the tree was given.
    need: Weight,
    bounds: Bounds,
    page: Page,
}

/// What a turn of a search came to.
#[derive(Clone, Copy, Debug, PartialEq, Eq)]
pub enum Turn {
    /// It moved past one document, which it saw unless that weighs less than the cutoff.
    More,
    /// Nothing that is left can change the page.
    Done,
}

impl Search {
    /// A search at its first match.
    pub fn open<L: Ledger>(
        alloc: Global,
        index: &Index,
        paging: &Paging,
        query: &Query,
        steps: &mut Steps<L>,
    ) -> Result<Search, AllocError>
        requires fits { fits_tree (query_view query.now) ≡ true }
        requires paging { FitsPaging paging.now }
        ensures stands { IfOk result (λ search. Stands search index.now paging.now (query_view query.now)) }

        // Ahead are all documents that score, and none of them was seen.
        ensures first { IfOk result (λ search. (ahead index.now search ≡ scored (query_view query.now) paging.now.options.scheme 1 index.now.live.documents) × (search.page.seen ≡ 0)) }

        // Of terms alone it read one entry of each list at the most.
        ensures one_each { IfOk result (λ search. (lists : List (List ℕ)) → flat_lists (query_view query.now) index.now.live.documents ≡ Some lists → spent_by search ≤ length lists) }
        ensures cost { IfOk result (λ search. steps.new ≡ steps.old + spent_by search) }
        ensures later { steps.old ≤ steps.new }
    {
        let scheme = paging.options.scheme;
        let _highest = index.highest();
        let _many = index.all().length();
        let bounds = Bounds {
            greatest: ceil(index, query, scheme, 1),
            most: static_count(index, query),
        };
        let page = Page::open(alloc, paging)?;
        let tree = Tree::open(alloc, index, query, scheme, steps)?;
        Ok(Search {
            tree,
            need: 0,
            bounds,
            page,
        })
    }

    /// Moves past the next document, unless nothing that is left can change the page; one that weighs less than the cutoff
    /// is not seen. Where memory runs out the search is only to be dropped.
    pub fn turn<L: Ledger>(
        &mut self,
        index: &Index,
        steps: &mut Steps<L>,
    ) -> Result<Turn, AllocError>
        requires on { IsOn self.old index.now }
        ensures stands { IfOk result (λ turn. (paging : Paging) (query : QueryTree.Tree) → Stands self.old index.now paging query → Stands self.new index.now paging query) }

        // It is done exactly where nothing is left that can change the page, and then nothing changes.
        ensures done { IfOk result (λ turn. turn ≡ (if is_done index.now self.old then Turn.Done else Turn.More)) }
        ensures same { IfOk result (λ turn. turn ≡ Turn.Done → (self.new ≡ self.old) × (steps.new ≡ steps.old)) }

        // Else it sees the document at the head exactly where that weighs the cutoff, and moves past it alone.
        ensures past { IfOk result (λ turn. turn ≡ Turn.More → MovesPast index.now self.old self.new) }
        ensures fewer { IfOk result (λ turn. turn ≡ Turn.More → length (ahead index.now self.new) < length (ahead index.now self.old)) }

        // Where the page goes by relevance and nothing is collapsed, it sees none behind the stop point.
        ensures early { IfOk result (λ turn. turn ≡ Turn.More → (paging : Paging) (query : QueryTree.Tree) → Stands self.old index.now paging query → is_plain paging ≡ true
            → left_to_stop paging query index.now self.new < left_to_stop paging query index.now self.old) }

        // It is not done before it saw as many as are wanted, or all.
        ensures enough { IfOk result (λ turn. turn ≡ Turn.Done → (paging : Paging) (query : QueryTree.Tree) → Stands self.old index.now paging query
            → min (wanted paging) (length (found_by query paging index.now.live.documents)) ≤ self.old.page.seen) }

        // Without keys and values it takes no memory.
        ensures free { self.old.page.collapse ≡ None → self.old.page.order.by ≡ OrderBy.Relevance → IsOk result }

        // The tree was asked for what the page needs with what was seen, and for no less than before.
        ensures asked { IfOk result (λ turn. turn ≡ Turn.More → Asks index.now self.old self.new) }
        ensures cost { IfOk result (λ turn. steps.new + spent_by self.old ≡ steps.old + spent_by self.new) }
        ensures later { steps.old ≤ steps.new }
    {
        let Some(id) = self.look(index, steps)? else {
            return Ok(Turn::Done);
        };
        self.pass(index, id, steps);
        Ok(Turn::More)
    }

    /// As `turn`, but where the matches are a range and go by their values in it, it sees those too that come behind the next
    /// one and behind a full page, up to the first that may not: they change nothing but how many were seen.
    pub fn stride<L: Ledger>(
        &mut self,
        index: &Index,
        steps: &mut Steps<L>,
    ) -> Result<Turn, AllocError>
        requires on { IsOn self.old index.now }
        ensures stands { IfOk result (λ turn. (paging : Paging) (query : QueryTree.Tree) → Stands self.old index.now paging query → Stands self.new index.now paging query) }
        ensures done { IfOk result (λ turn. turn ≡ (if is_done index.now self.old then Turn.Done else Turn.More)) }
        ensures same { IfOk result (λ turn. turn ≡ Turn.Done → (self.new ≡ self.old) × (steps.new ≡ steps.old)) }
        ensures fewer { IfOk result (λ turn. turn ≡ Turn.More → length (ahead index.now self.new) < length (ahead index.now self.old)) }
        ensures cost { IfOk result (λ turn. steps.new + spent_by self.old ≡ steps.old + spent_by self.new) }
        ensures later { steps.old ≤ steps.new }
    {
        let Some(id) = self.look(index, steps)? else {
            return Ok(Turn::Done);
        };
        self.pass_far(index, id, steps);
        Ok(Turn::More)
    }

    /// Sees the next document, unless that weighs less than the cutoff, and answers its id; `None` where nothing that is left
    /// can change the page.
    fn look<L: Ledger>(
        &mut self,
        index: &Index,
        steps: &mut Steps<L>,
    ) -> Result<Option<DocId>, AllocError>
        requires on { IsOn self.old index.now }
        ensures looks { IfOk result (λ id. Looks index.now id self.old self.new) }
        ensures free { self.old.page.collapse ≡ None → self.old.page.order.by ≡ OrderBy.Relevance → IsOk result }
        ensures cost { IfOk result (λ id. steps.new + self.old.page.read ≡ steps.old + self.new.page.read) }
        ensures later { steps.old ≤ steps.new }
    {
        let ceiling = self.tree.ceiling();
        let Some(id) = self.tree.head() else {
            return Ok(None);
        };
        if self.page.is_settled(ceiling) {
            return Ok(None);
        }
        let weight = self.tree.weight();
        if weight >= self.page.cutoff() {
            self.page.see(&IndexReader { index }, id, weight, steps)?;
        }
        Ok(Some(id))
    }

    /// Moves past the document with this id, and past those behind it that come behind the page by their values alone.
    fn pass_far<L: Ledger>(&mut self, index: &Index, id: DocId, steps: &mut Steps<L>)
        requires tree { IsTree index.now self.old.tree }
        requires need { self.old.need ≡ self.old.tree.need }
        ensures passes { PassesFar index.now id self.old self.new }
        ensures read { self.new.page.read ≡ self.old.page.read }
        ensures cost { steps.new + self.old.tree.spent ≡ steps.old + self.new.tree.spent }
        ensures later { steps.old ≤ steps.new }
    {
        if let Some((key, last)) = self.page.edge() {
            if let Some(count) = self.tree.skip_behind(index, key, last, steps) {
                self.page.count_in(count);
                return;
            }
        }
        self.pass(index, id, steps);
    }

    /// Moves past the document with this id.
    fn pass<L: Ledger>(&mut self, index: &Index, id: DocId, steps: &mut Steps<L>)
        requires tree { IsTree index.now self.old.tree }
        requires need { self.old.need ≡ self.old.tree.need }
        ensures passes { PassesUnseen index.now id self.old self.new }
        ensures cost { steps.new + self.old.tree.spent ≡ steps.old + self.new.tree.spent }
        ensures later { steps.old ≤ steps.new }
    {
        if id == DocId::MAX {
            self.tree.close();
            return;
        }
        let need = self.need.max(self.page.need(self.tree.ceiling()));
        self.tree.seek(index, id + 1, need, steps);
        self.need = need;
    }

    /// The report of a search that is done.
    pub fn finish<L: Ledger>(
        self,
        index: &Index,
        steps: &mut Steps<L>,
    ) -> Result<Report, AllocError>
        requires on { IsOn self index.now }
        requires done { is_done index.now self ≡ true }
        ensures report { IfOk result (λ report. (paging : Paging) (query : QueryTree.Tree) → Stands self index.now paging query → ReportsFor query paging index.now.live.documents report) }
        ensures cost { IfOk result (λ report. steps.new + spent_by self ≡ steps.old + report.steps) }
        ensures later { steps.old ≤ steps.new }
    {
        let ceiling = self.tree.ceiling();
        let is_whole = self.is_whole(ceiling);
        let spent = self.tree.spent();
        let Search {
            tree,
            bounds,
            page,
            ..
        } = self;
        drop(tree);
        page.report(&IndexReader { index }, bounds, is_whole, spent, steps)
    }

    /// Whether a search that is done saw all that matches, where nothing that is left weighs more than this.
    fn is_whole(&self, ceiling: Weight) -> bool
        ensures { (i : Indexed) → IsTree i self.now.tree → result ≡ is_whole self.now.page.options self.now.need (is_none (first_id (ahead i self.now))) ceiling }
    {
        let is_ended = self.tree.head().is_none();
        self.page.is_whole(self.need, is_ended, ceiling)
    }

    /// The readings that were made since it was opened, and with the opening.
    pub fn spent(&self) -> u128
        ensures value { result ≡ min (2 ^ 128 - 1) (spent_by self.now) }

        // At all times it is within the bound on the steps of the find.
        ensures within { (i : Indexed) (paging : Paging) (query : QueryTree.Tree) (hits : ℕ) → Stands self.now i paging query → result ≤ sharp query paging i.live.documents hits }

        // While a find of terms alone by relevance wants to see more, it read each list up to the last match that it saw, and
        // one entry more.
        ensures paced { (i : Indexed) (paging : Paging) (query : QueryTree.Tree) (lists : List (List ℕ)) → Stands self.now i paging query → IsEarly paging self.now.page.seen
            → flat_lists query i.live.documents ≡ Some lists → result ≤ ups_seen lists paging query i self.now }
    {
        self.tree
            .spent()
            .saturating_add(u128::from(self.page.read()))
    }
}
