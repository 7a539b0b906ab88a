//! The tree of a query, as a search sees it.
ghost use Rattle.std.specs.Prelude.{◌≡◌, ◌≤◌, ◌<◌, ◌+◌, ℕ, List, [], ◌∷◌, Some, IfOk, IfSome, IfNone, true};
ghost use Rattle.sk_base.specs.declared.find.Scheme.{Scheme};
ghost use Rattle.sk_sorted.specs.Entries.{from, first_id};
ghost use Rattle.sk_query.specs.declared.form.Form.TheVariants as Form;
ghost use Rattle.sk_query.specs.Trees as QueryTree;
ghost use Rattle.sk_query.specs.Trees.{query_view};
ghost use Rattle.sk_query.specs.Fits.{fits_tree};
ghost use Rattle.sk_model.specs.Covers.{Covers};
ghost use Rattle.sk_model.specs.Bounds.{ceil};
ghost use Rattle.sk_model.specs.Allowance.{leaf_readings};
ghost use Rattle.sk_model.specs.Sharp.{flat_lists, ups, rare_lists, rare_readings, terms_in};
ghost use Rattle.sk_index.specs.Indexed.{Indexed};
ghost use Rattle.sk_nodes.specs.Left.{from_on};
ghost use Rattle.sk_nodes.specs.Leaves.{AtMost};
ghost use Rattle.sk_tree.specs.Built.{gives, left, scored, first_weight, IsTree, Built};
ghost use Rattle.sk_tree.specs.Stops.{PaysToStop};
ghost use Rattle.sk_tree.specs.Rare.{Rare};
ghost use Rattle.sk_tree.specs.Decays.{Decays, DecaysBoth};
ghost use Rattle.sk_tree.specs.Kept.{KeepsAccounts};
ghost use Rattle.sk_tree.specs.Skips.{Skips};

use crate::opening::open_node;
use sk_base::{DocId, Scheme, SortKey, Weight};
use sk_decay::Head;
use sk_index::Index;
use sk_nodes::{END, Node, Top, reach, skip_behind};
use sk_query::Query;
use sk_steps::Steps;
use std::alloc::{AllocError, Global};
use std::sync::ledger::Ledger;

/// What a query still gives, at its first match. It keeps the last need that it was given, and how many steps it took.
#[derive(Drop)]
pub struct Tree {
    top: Top,
    node: Node,
    need: Weight,
    spent: u128,
}

impl Tree {
    /// The tree of a query, at its first match. It takes all the memory that it ever needs.
    pub fn open<L: Ledger>(
        alloc: Global,
        index: &Index,
        query: &Query,
        scheme: Scheme,
        steps: &mut Steps<L>,
    ) -> Result<Tree, AllocError>
        requires fits { fits_tree (query_view query.now) ≡ true }
        ensures built { IfOk result (λ tree. Built tree index.now (query_view query.now) scheme) }

        // What is left is what the documents score one by one.
        ensures left { IfOk result (λ tree. left index.now tree ≡ scored (query_view query.now) scheme 1 index.now.live.documents) }
        ensures need { IfOk result (λ tree. tree.need ≡ 0) }

        // Of terms alone it stops at any point: it read one entry of each list.
        ensures stops { IfOk result (λ tree. (lists : List (List ℕ)) → flat_lists (query_view query.now) index.now.live.documents ≡ Some lists → (point : ℕ) → PaysToStop index.now tree point (ups lists point index.now.live.documents)) }

        // Where a list leads, it reads the others with it.
        ensures rare { IfOk result (λ tree. (lists : List (List ℕ)) (m : ℕ) → rare_lists (query_view query.now) index.now.live.documents ≡ Some (lists, m) → Rare index.now tree (rare_readings lists m index.now.live.documents)) }

        // Of an or of two terms either may fade.
        ensures decays { IfOk result (λ tree. (ts : QueryTree.Trees) (a b : List ℕ) → query_view query.now ≡ QueryTree.parts Form.Or ts → terms_in ts ≡ Some (a ∷ b ∷ []) → (point : ℕ) → DecaysBoth index.now tree scheme point a b) }

        ensures cost { IfOk result (λ tree. steps.new ≡ steps.old + tree.spent) }
        ensures later { steps.old ≤ steps.new }
    {
        let _sound = index.highest();
        let _sorted = index.all().length();
        let mut most = 0u128;
        let mut spent = 0u128;
        let (top, node) = open_node(alloc, index, query, scheme, 1, &mut most, &mut spent, steps)?;
        Ok(Tree {
            top,
            node,
            need: 0,
            spent,
        })
    }

    /// Moves on to the first match from the target on; it may pass over what weighs less than the need. It takes no memory.
    pub fn seek<L: Ledger>(
        &mut self,
        index: &Index,
        target: DocId,
        need: Weight,
        steps: &mut Steps<L>,
    )
        requires tree { IsTree index.now self.old }
        requires rising { self.old.need ≤ need }
        ensures tree { IsTree index.now self.new }
        ensures built { (query : QueryTree.Tree) (scheme : Scheme) → Built self.old index.now query scheme → Built self.new index.now query scheme }

        // What is left covers what was left from the target on.
        ensures covers { Covers (from_on target (gives index.now self.old)) (gives index.now self.new) need }
        ensures exact { need ≡ 0 → left index.now self.new ≡ from target (left index.now self.old) }
        ensures closed { self.old.top.greatest < need → (steps.new ≡ steps.old) × (left index.now self.new ≡ []) }
        ensures falls { self.new.top.greatest ≤ self.old.top.greatest }
        ensures need { self.new.need ≡ need }
        ensures accounts { KeepsAccounts index.now target need self.old self.new }
        ensures cost { steps.new + self.old.spent ≡ steps.old + self.new.spent }
        ensures later { steps.old ≤ steps.new }
    {
        self.need = need;
        if self.top.greatest < need {
            self.node = Node::Nothing;
            self.top = Top::ended();
            return;
        }
        reach(
            &mut self.top,
            &mut self.node,
            index,
            Head::from(target),
            need,
            &mut self.spent,
            steps,
        );
    }

    /// Where the query is a range by the slot of the key: moves past the first match, and past those behind it whose values are
    /// numbers that come behind another one in the order of the key. Answers how many, the first not counted; `None` where the
    /// query is no such range, nothing is left, or the other value is no number, and then it stays.
    pub fn skip_behind<L: Ledger>(
        &mut self,
        index: &Index,
        key: SortKey,
        last: &[u8],
        steps: &mut Steps<L>,
    ) -> Option<u32>
        requires tree { IsTree index.now self.old }
        ensures built { (query : QueryTree.Tree) (scheme : Scheme) → Built self.old index.now query scheme → Built self.new index.now query scheme }
        ensures none { IfNone result (self.new ≡ self.old) }
        ensures some { IfSome result (λ count. Skips index.now key last.now count self.old self.new) }
        ensures need { self.new.need ≡ self.old.need }
        ensures cost { steps.new + self.old.spent ≡ steps.old + self.new.spent }
        ensures later { steps.old ≤ steps.new }
    {
        skip_behind(
            &mut self.top,
            &mut self.node,
            index,
            key,
            last,
            &mut self.spent,
            steps,
        )
    }

    /// The first id that is left.
    pub fn head(&self) -> Option<DocId>
        ensures { (i : Indexed) → IsTree i self.now → result ≡ first_id (left i self.now) }
    {
        if self.top.head < END {
            Some(self.top.head as DocId)
        } else {
            None
        }
    }

    /// The weight there, 0 where nothing is left.
    pub fn weight(&self) -> Weight
        ensures { (i : Indexed) → IsTree i self.now → result ≡ first_weight (left i self.now) }
    {
        self.top.weight
    }

    /// No weight that is left is above it.
    pub fn ceiling(&self) -> Weight
        ensures value { result ≡ self.now.top.greatest }
        ensures bound { (i : Indexed) → IsTree i self.now → AtMost result (gives i self.now) }
        ensures within { (i : Indexed) (query : QueryTree.Tree) (scheme : Scheme) → Built self.now i query scheme → result ≤ ceil query scheme 1 i.live.documents }
    {
        self.top.greatest
    }

    /// How many steps it took since and with its opening.
    pub fn spent(&self) -> u128
        ensures value { result ≡ self.now.spent }
        ensures within { (i : Indexed) (query : QueryTree.Tree) (scheme : Scheme) → Built self.now i query scheme → result ≤ leaf_readings query i.live.documents }
        ensures stops { (i : Indexed) (point most : ℕ) → PaysToStop i self.now point most → result ≤ most }
        ensures rare { (i : Indexed) (most : ℕ) → Rare i self.now most → result ≤ most }
        ensures decays { (i : Indexed) (point greatest most : ℕ) → Decays i self.now point greatest most → result ≤ most }
    {
        self.spent
    }

    /// Nothing is left.
    pub fn close(&mut self)
        ensures left { (i : Indexed) → left i self.new ≡ [] }
        ensures tree { (i : Indexed) → IsTree i self.old → IsTree i self.new }
        ensures built { (i : Indexed) (query : QueryTree.Tree) (scheme : Scheme) → Built self.old i query scheme → Built self.new i query scheme }
        ensures spent { self.new.spent ≡ self.old.spent }
        ensures need { self.new.need ≡ self.old.need }
        ensures stops { (i : Indexed) (point most : ℕ) → PaysToStop i self.old point most → PaysToStop i self.new point most }
        ensures rare { (i : Indexed) (most : ℕ) → Rare i self.old most → Rare i self.new most }
        ensures decays { (i : Indexed) (point greatest most : ℕ) → Decays i self.old point greatest most → Decays i self.new point greatest most }
    {
        self.node = Node::Nothing;
        self.top = Top::ended();
    }
}
