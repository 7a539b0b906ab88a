//! The trees of a query over several indexes, searched as one.
ghost use Rattle.std.specs.Prelude.{◌≡◌, ◌≤◌, ◌<◌, ◌+◌, ◌^◌, ℕ, true, false, not, max, length, map, sum_by, is_some, nat_lt, unwrap_or, List, Some, IfOk, MatchOption, if◌then◌else◌};
ghost use Rattle.std.specs.List.{AllByRecursion, list_all};
ghost use Rattle.sk_base.specs.Finds.{FitsPaging};
ghost use Rattle.sk_base.specs.declared.find.Paging.{Paging};
ghost use Rattle.sk_base.specs.declared.find.Scheme.{Scheme as FindScheme};
ghost use Rattle.sk_query.specs.Trees as QueryTree;
ghost use Rattle.sk_query.specs.Trees.{query_view};
ghost use Rattle.sk_query.specs.Fits.{fits_tree};
ghost use Rattle.sk_model.specs.Bounds.{ceil, static_count, greatest_in};
ghost use Rattle.sk_model.specs.Joined.{term_lists};
ghost use Rattle.sk_model.specs.Sharp.{is_plain};
ghost use Rattle.sk_report.specs.Reports.{ReportsOver};
ghost use Rattle.sk_documents.specs.Documented.{HasTerms};
ghost use Rattle.sk_documents.specs.Turned.{AreTurns};
ghost use Rattle.sk_index.specs.Indexed.{Indexed};
ghost use Rattle.sk_page.specs.Needs.{need_for};
ghost use Rattle.sk_shards.specs.Forests.{Stands, IsOver, AreBuilt, AreOpened, IsFirst, PassesUnseen, AreOver, ahead, ceiling_in, gives_all, docs_of, is_done, spent_by, spent_in, is_term};

use crate::reader::PartsReader;
use sk_base::{DocId, OrderBy, Paging, Report, Scheme, Weight};
use sk_index::Index;
use sk_page::{Bounds, Page};
use sk_query::Query;
use sk_sorted::joined_id;
use sk_steps::Steps;
use sk_tree::Tree;
use sk_weight::{ceil, static_count};
use std::alloc::{AllocError, Global};
use std::sync::ledger::Ledger;

/// A tree for each index, and the page of the matches that they gave.
#[derive(Drop)]
pub(crate) struct Forest {
    trees: Vec<Tree>,
    /// The greatest need that a tree was given.
    need: Weight,
    /// Whether trees are asked for what the page needs. Those of terms are asked for all, up to the end of the search:
    /// under a need a part where two terms never meet would be read far behind the point at which the page is settled.
    is_pruned: bool,
    bounds: Bounds,
    page: Page,
}

/// The first document that is left in a tree.
#[derive(Clone, Copy)]
struct Head {
    part: u32,
    /// Its id in the part.
    own: DocId,
    /// Its joined id.
    id: DocId,
}

impl Forest {
    /// The trees at their first matches.
    pub(crate) fn open<L: Ledger>(
        alloc: Global,
        indexes: &[Index],
        paging: &Paging,
        query: &Query,
        steps: &mut Steps<L>,
    ) -> Result<Forest, AllocError>
        requires turns { AreTurns (λ i. i.live.documents) indexes.now }
        requires terms { AllByRecursion HasTerms (docs_of indexes.now) }
        requires fits { fits_tree (query_view query.now) ≡ true }
        requires paging { FitsPaging paging.now }
        ensures stands { IfOk result (λ forest. Stands forest indexes.now paging.now (query_view query.now)) }
        ensures cost { IfOk result (λ forest. steps.new ≡ steps.old + spent_by forest) }
        ensures later { steps.old ≤ steps.new }
    {
        let scheme = paging.options.scheme;
        let page = Page::open(alloc, paging)?;
        let trees = open_trees(alloc, indexes, query, scheme, steps)?;
        Ok(Forest {
            trees,
            need: 0,
            is_pruned: !(is_plain(paging) && is_of_terms(query)),
            bounds: Bounds {
                greatest: greatest_ceil(indexes, query, scheme),
                most: all_statics(indexes, query),
            },
            page,
        })
    }

    /// Moves past the first document that is left in any tree, which the page sees unless it weighs less than the cutoff;
    /// the answer is false where nothing that is left can change the page, and then nothing moves. Where memory runs out
    /// all is only to be dropped.
    pub(crate) fn turn<L: Ledger>(
        &mut self,
        indexes: &[Index],
        steps: &mut Steps<L>,
    ) -> Result<bool, AllocError>
        requires turns { AreTurns (λ i. i.live.documents) indexes.now }
        requires over { IsOver self.old indexes.now }
        ensures stands { IfOk result (λ moved. (paging : Paging) (query : QueryTree.Tree) → Stands self.old indexes.now paging query → Stands self.new indexes.now paging query) }

        // It is done exactly where nothing is left that can change the page, and then nothing changes.
        ensures done { IfOk result (λ moved. moved ≡ not (is_done indexes.now self.old)) }
        ensures same { IfOk result (λ moved. moved ≡ false → (self.new ≡ self.old) × (steps.new ≡ steps.old)) }
        ensures fewer { IfOk result (λ moved. moved ≡ true → length (ahead indexes.now self.new) < length (ahead indexes.now self.old)) }
        ensures cost { IfOk result (λ moved. steps.new + spent_by self.old ≡ steps.old + spent_by self.new) }
        ensures later { steps.old ≤ steps.new }
    {
        let ceiling = ceiling_of(self.trees.as_slice());
        let Some(head) = first_of(self.trees.as_slice()) else {
            return Ok(false);
        };
        if self.page.is_settled(ceiling) {
            return Ok(false);
        }
        let weight = self.trees[head.part as usize].weight();
        if weight >= self.page.cutoff() {
            self.page
                .see(&PartsReader { indexes }, head.id, weight, steps)?;
        }
        self.pass(indexes, head, ceiling, steps);
        Ok(true)
    }

    /// Moves the tree of a head past it. No other tree moves.
    fn pass<L: Ledger>(
        &mut self,
        indexes: &[Index],
        head: Head,
        ceiling: Weight,
        steps: &mut Steps<L>,
    )
        requires turns { AreTurns (λ i. i.live.documents) indexes.now }
        requires trees { (query : QueryTree.Tree) × (scheme : FindScheme) × AreBuilt indexes.now self.old.trees.items query scheme }
        requires first { IsFirst indexes.now self.old.trees.items (Some head) }
        requires ceiling { ceiling ≡ ceiling_in self.old.trees.items }
        requires light { ceiling < 2 ^ 127 }
        requires asked { AllByRecursion (λ t. t.need ≤ self.old.need) self.old.trees.items }
        ensures passes { PassesUnseen indexes.now head self.old self.new }
        ensures cost { steps.new + spent_in self.old.trees.items ≡ steps.old + spent_in self.new.trees.items }
        ensures later { steps.old ≤ steps.new }
    {
        let part = head.part as usize;
        if head.own == DocId::MAX {
            self.trees[part].close();
            return;
        }
        let need = self.need_behind(ceiling);
        self.trees[part].seek(&indexes[part], head.own + 1, need, steps);
        self.need = need;
    }

    /// What a tree is asked for behind a head.
    fn need_behind(&self, ceiling: Weight) -> Weight
        requires { ceiling < 2 ^ 127 }
        ensures { result ≡ (if self.now.is_pruned then max self.now.need (need_for self.now.page.options self.now.page.seen self.now.page.heap ceiling) else self.now.need) }
    {
        if self.is_pruned {
            self.need.max(self.page.need(ceiling))
        } else {
            self.need
        }
    }

    /// The report of a search that is done.
    pub(crate) fn finish<L: Ledger>(
        self,
        indexes: &[Index],
        steps: &mut Steps<L>,
    ) -> Result<Report, AllocError>
        requires turns { AreTurns (λ i. i.live.documents) indexes.now }
        requires over { IsOver self indexes.now }
        requires done { is_done indexes.now self ≡ true }
        ensures report { IfOk result (λ report. (paging : Paging) (query : QueryTree.Tree) → Stands self indexes.now paging query → ReportsOver (length indexes.now) query paging (docs_of indexes.now) report) }
        ensures cost { IfOk result (λ report. steps.new + spent_by self ≡ steps.old + report.steps) }
        ensures later { steps.old ≤ steps.new }
    {
        let trees = self.trees.as_slice();
        let is_ended = first_of(trees).is_none();
        let is_whole = self.page.is_whole(self.need, is_ended, ceiling_of(trees));
        let spent = spent_of(trees)?;
        self.page.report(
            &PartsReader { indexes },
            self.bounds,
            is_whole,
            spent,
            steps,
        )
    }
}

/// A tree for each index, at its first match.
fn open_trees<L: Ledger>(
    alloc: Global,
    indexes: &[Index],
    query: &Query,
    scheme: Scheme,
    steps: &mut Steps<L>,
) -> Result<Vec<Tree>, AllocError>
    requires fits { fits_tree (query_view query.now) ≡ true }
    ensures opened { IfOk result (λ trees. AreOpened indexes.now trees.items (query_view query.now) scheme) }
    ensures cost { IfOk result (λ trees. steps.new ≡ steps.old + spent_in trees.items) }
    ensures later { steps.old ≤ steps.new }
{
    let mut trees = Vec::new(alloc);
    'indexes: for index in indexes {
        let tree = Tree::open(alloc, index, query, scheme, steps)?;
        trees.push(tree)?;
    }
    Ok(trees)
}

/// The tree with the least joined id, and that.
fn first_of(trees: &[Tree]) -> Option<Head>
    requires { (indexes : List Indexed) × AreOver indexes trees.now }
    ensures { (indexes : List Indexed) → AreOver indexes trees.now → IsFirst indexes trees.now result }
{
    let parts = trees.len() as u32;
    let mut first: Option<Head> = None;
    'trees: for (i, tree) in trees.iter().enumerate() {
        let Some(own) = tree.head() else {
            continue;
        };
        let part = i as u32;
        let id = joined_id(parts, part, own);
        if is_before(id, first) {
            first = Some(Head { part, own, id });
        }
    }
    first
}

/// Whether an id is before a head, if there is one.
fn is_before(id: DocId, head: Option<Head>) -> bool
    ensures { MatchOption head (result ≡ true) (λ h. result ≡ nat_lt id h.id) }
{
    head.is_none_or(|head| id < head.id)
}

/// No weight that is left in any tree is above it.
fn ceiling_of(trees: &[Tree]) -> Weight
    ensures value { result ≡ ceiling_in trees.now }
    ensures bound { (indexes : List Indexed) (query : QueryTree.Tree) (scheme : FindScheme) → AreBuilt indexes trees.now query scheme → (id : ℕ) → unwrap_or (gives_all indexes trees.now id) 0 ≤ result }
{
    let mut greatest = 0;
    'trees: for tree in trees {
        greatest = tree.ceiling().max(greatest);
    }
    greatest
}

/// The readings of all trees. As many as 128 bits cannot count are want of memory.
fn spent_of(trees: &[Tree]) -> Result<u128, AllocError>
    ensures { IfOk result (λ spent. spent ≡ spent_in trees.now) }
{
    let mut spent = 0u128;
    'trees: for tree in trees {
        let Some(sum) = spent.checked_add(tree.spent()) else {
            return Err(AllocError);
        };
        spent = sum;
    }
    Ok(spent)
}

/// No document of any index weighs more.
fn greatest_ceil(indexes: &[Index], query: &Query, scheme: Scheme) -> Weight
    requires { fits_tree (query_view query.now) ≡ true }
    ensures { result ≡ greatest_in (map (λ i. ceil (query_view query.now) scheme 1 i.live.documents) indexes.now) }
{
    let mut greatest = 0;
    'indexes: for index in indexes {
        let _light = index.highest();
        greatest = ceil(index, query, scheme, 1).max(greatest);
    }
    greatest
}

/// No more documents of all indexes match.
fn all_statics(indexes: &[Index], query: &Query) -> u128
    requires few { length indexes.now ≤ 16 }
    ensures value { result ≡ sum_by (λ i. static_count (query_view query.now) i.live.documents) indexes.now }
{
    let mut sum = 0u128;
    'indexes: for index in indexes {
        let _few = index.all().length();
        sum += static_count(index, query);
    }
    sum
}

/// Whether this is a term, or an or of terms.
fn is_of_terms(query: &Query) -> bool
    ensures { result ≡ is_some (term_lists (query_view query.now)) }
{
    match query {
        Query::Term(_) => true,
        Query::Or(parts) => are_terms(parts.as_slice()),
        _ => false,
    }
}

/// Whether each is a term.
fn are_terms(queries: &[Query]) -> bool
    ensures { result ≡ list_all (λ query. is_term (query_view query)) queries.now }
{
    queries.iter().all(is_term)
}

fn is_term(query: &Query) -> bool
    ensures { result ≡ is_term (query_view query.now) }
{
    matches!(query, Query::Term(_))
}

/// The heavier first, and nothing collapsed.
fn is_plain(paging: &Paging) -> bool
    ensures { result ≡ is_plain paging.now }
{
    matches!(paging.order.by, OrderBy::Relevance) && paging.collapse.is_none()
}
