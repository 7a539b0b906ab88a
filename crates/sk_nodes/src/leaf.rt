//! The entries of one list, with what they weigh.
ghost use Rattle.std.specs.Prelude.{◌≡◌, ◌≤◌, ◌<◌, ◌+◌, ◌^◌, ℕ, min, length, unwrap_or};
ghost use Rattle.sk_sorted.specs.Entries.{AreSorted};
ghost use Rattle.sk_sorted.specs.Runs.{flat};
ghost use Rattle.sk_lists.specs.Seeks.{count_to};
ghost use Rattle.sk_index.specs.Indexed.{Indexed};
ghost use Rattle.sk_nodes.specs.Accounts.{Spends};
ghost use Rattle.sk_nodes.specs.Leaves.{list_in, runs_of, weighed, leaf_rest, leaf_unread, leaf_greatest, IsThere, IsFresh, entries_of, head_of, AtMost, IsLeafOn, WeighBelow};
ghost use Rattle.sk_nodes.specs.Sound.{IsTop, Lands};
ghost use Rattle.sk_nodes.specs.Begun.{Yields, OpensLone, Begins};
ghost use Rattle.sk_nodes.specs.Shapes.{leaf};
ghost use Rattle.sk_nodes.specs.Led.{Walks};

use crate::top::{END, Top};
use sk_base::{MOST_WDF, Scheme, Weight};
use sk_decay::Head;
use sk_index::Index;
use sk_lists::{Cursor, List};
use sk_steps::Steps;
use sk_weight::{need_wdf, weigh_by};
use std::sync::ledger::Ledger;

/// Which list: that of a term, by its number, or that of all documents.
#[derive(Clone, Copy, Debug)]
pub enum ListOf {
    Term(usize),
    All,
}

/// The entries of a list from one on. The need and what wdf it comes to are those of the last seek under one.
#[derive(Drop)]
pub struct Leaf {
    // What a step reads stands together.
    source: ListOf,
    scheme: Scheme,
    factor: u64,
    cursor: Cursor,
    need_wdf: u32,
    need: Weight,
    greatest: Weight,
}

/// None of a leaf's entries weighs more, from some target on up to the last id.
#[derive(Clone, Copy, Debug)]
pub(crate) struct Block {
    pub last: Head,
    pub greatest: Weight,
}

impl Leaf {
    /// A leaf on the first entry of its list, with its top.
    pub fn open<L: Ledger>(
        top: &mut Top,
        index: &Index,
        source: ListOf,
        scheme: Scheme,
        factor: u64,
        spent: &mut u128,
        steps: &mut Steps<L>,
    ) -> Leaf
        requires there { IsThere source index.now.terms }
        requires factor { factor ≤ 65536 }
        requires documents { AreSorted index.now.live.documents }
        requires room { spent.old + length (list_in index.now source) < 2 ^ 128 }
        ensures fresh { IsFresh source scheme factor result }
        ensures yields { Yields index.now top.new (leaf result) (weighed factor scheme (list_in index.now source)) (leaf_greatest factor scheme (list_in index.now source)) }
        ensures lone { OpensLone index.now top.new (leaf result) (length (list_in index.now source)) spent.old spent.new }
        ensures begun { Begins index.now top.new (leaf result) (list_in index.now source) (leaf_greatest factor scheme (list_in index.now source)) }
        ensures begins { (point : ℕ) → spent.new + count_to point (entries_of index.now result) ≤ spent.old + (min 1 (length (list_in index.now source)) + count_to point (list_in index.now source)) }
        ensures spends { Spends (length (list_in index.now source)) (leaf_unread index.now result) spent.old spent.new steps.old steps.new }
    {
        let list = list_of(index, source);
        let length = list.length();
        let leaf = Leaf {
            source,
            scheme,
            factor,
            need: 0,
            need_wdf: 0,
            greatest: greatest_of(list, scheme, factor),
            cursor: Cursor::open(list, steps),
        };
        *spent += u128::from(length.min(1));
        leaf.show(top);
        leaf
    }

    /// Its place in the list.
    pub(crate) fn into_cursor(self) -> Cursor
        ensures { result ≡ self.cursor }
    {
        self.cursor
    }

    /// Moves on to the first entry from the target on; it may pass over what weighs less than the need.
    pub(crate) fn seek<L: Ledger>(
        &mut self,
        top: &mut Top,
        index: &Index,
        target: Head,
        need: Weight,
        spent: &mut u128,
        steps: &mut Steps<L>,
    )
        requires sound { IsLeafOn index.now self.old }
        requires target { target < 2 ^ 32 }
        requires room { spent.old + leaf_unread index.now self.old < 2 ^ 128 }
        ensures lands { Lands index.now target need (leaf self.old) (leaf self.new) top.new }
        ensures at { top.new.head ≡ head_of (entries_of index.now self.new) }
        ensures walks { Walks index.now target spent.old spent.new self.old self.new }
        ensures falls { top.new.greatest ≤ self.old.greatest }
        ensures own { self.new.greatest ≡ self.old.greatest }
        ensures moves { (point : ℕ) → target ≤ point + 1 → spent.new + count_to point (entries_of index.now self.new) ≤ spent.old + count_to point (entries_of index.now self.old) }
        ensures spends { Spends (leaf_unread index.now self.old) (leaf_unread index.now self.new) spent.old spent.new steps.old steps.new }
    {
        let list = list_of(index, self.source);
        self.need_wdf = self.wdf_for(need);
        self.need = need;
        let read = self.cursor.seek(list, target as u32, self.need_wdf, steps);
        *spent += u128::from(read);
        self.show(top);
    }

    /// The same from its head, which is kept beside it and lies below the target; what it can weigh stays as it is kept.
    #[inline(always)]
    pub(crate) fn advance<L: Ledger>(
        &mut self,
        top: &mut Top,
        index: &Index,
        target: Head,
        need: Weight,
        spent: &mut u128,
        steps: &mut Steps<L>,
    )
        requires sound { IsLeafOn index.now self.old }
        requires top { IsTop index.now top.old (leaf self.old) }
        requires below { top.old.head < target }
        requires target { target < 2 ^ 32 }
        requires room { spent.old + leaf_unread index.now self.old < 2 ^ 128 }
        ensures lands { Lands index.now target need (leaf self.old) (leaf self.new) top.new }
        ensures at { top.new.head ≡ head_of (entries_of index.now self.new) }
        ensures walks { Walks index.now target spent.old spent.new self.old self.new }
        ensures falls { top.new.greatest ≤ top.old.greatest }
        ensures own { self.new.greatest ≡ self.old.greatest }
        ensures moves { (point : ℕ) → target ≤ point + 1 → spent.new + count_to point (entries_of index.now self.new) ≤ spent.old + count_to point (entries_of index.now self.old) }
        ensures spends { Spends (leaf_unread index.now self.old) (leaf_unread index.now self.new) spent.old spent.new steps.old steps.new }
    {
        let list = list_of(index, self.source);
        self.need_wdf = self.wdf_for(need);
        self.need = need;
        let read = self
            .cursor
            .advance(list, target as u32, self.need_wdf, steps);
        *spent += u128::from(read);
        self.point(top);
    }

    /// The same without a need.
    #[inline(always)]
    pub(crate) fn step<L: Ledger>(
        &mut self,
        top: &mut Top,
        index: &Index,
        target: Head,
        spent: &mut u128,
        steps: &mut Steps<L>,
    )
        requires sound { IsLeafOn index.now self.old }
        requires top { IsTop index.now top.old (leaf self.old) }
        requires below { top.old.head < target }
        requires target { target < 2 ^ 32 }
        requires room { spent.old + leaf_unread index.now self.old < 2 ^ 128 }
        ensures lands { Lands index.now target 0 (leaf self.old) (leaf self.new) top.new }
        ensures walks { Walks index.now target spent.old spent.new self.old self.new }
        ensures falls { top.new.greatest ≤ top.old.greatest }
        ensures moves { (point : ℕ) → target ≤ point + 1 → spent.new + count_to point (entries_of index.now self.new) ≤ spent.old + count_to point (entries_of index.now self.old) }
        ensures spends { Spends (leaf_unread index.now self.old) (leaf_unread index.now self.new) spent.old spent.new steps.old steps.new }
    {
        let list = list_of(index, self.source);
        let read = self.cursor.advance(list, target as u32, 0, steps);
        *spent += u128::from(read);
        self.point(top);
    }

    /// How much its entries from the target on can weigh, up to the end of the chunk that the target falls into. It reads
    /// nothing.
    #[inline(always)]
    pub(crate) fn block_max(&self, index: &Index, target: Head) -> Block
        requires sound { IsLeafOn index.now self.now }
        requires target { target < 2 ^ 32 }
        ensures reached { target ≤ result.last }
        ensures small { result.last < 2 ^ 32 }
        ensures bound { (id : ℕ) → target ≤ id → id ≤ result.last → unwrap_or (leaf_rest index.now self.now id) 0 ≤ result.greatest }
        ensures fits { result.greatest < 2 ^ 126 }
    {
        let list = list_of(index, self.source);
        let block = self.cursor.block_max(list, target as u32);
        Block {
            last: Head::from(block.last),
            greatest: weigh_by(self.factor, self.scheme, u64::from(block.greatest)),
        }
    }

    /// The least wdf that weighs what is needed, worked out anew for a new need.
    fn wdf_for(&self, need: Weight) -> u32
        requires factor { self.now.factor ≤ 65536 }
        requires light { WeighBelow self.now.factor self.now.scheme self.now.need_wdf self.now.need }
        ensures { WeighBelow self.now.factor self.now.scheme result need }
    {
        if need == self.need {
            return self.need_wdf;
        }
        match need_wdf(self.scheme, self.factor, need) {
            Some(least) => least,
            None => MOST_WDF + 1,
        }
    }

    /// Writes the head and its weight. What it can weigh is nothing at the end, and stays before that.
    #[inline(always)]
    fn point(&self, top: &mut Top)
        requires { self.now.factor ≤ 65536 }
        ensures top { (i : Indexed) → IsLeafOn i self.now → AtMost top.old.greatest (leaf_rest i self.now) → top.old.greatest ≤ self.now.greatest
            → IsTop i top.new (leaf self.now) }
        ensures at { (i : Indexed) → IsLeafOn i self.now → top.new.head ≡ head_of (entries_of i self.now) }
        ensures falls { top.new.greatest ≤ top.old.greatest }
    {
        let wdf = self.cursor.wdf();
        match self.cursor.head() {
            Some(id) => {
                top.head = Head::from(id);
                top.weight = weigh_by(self.factor, self.scheme, u64::from(wdf));
            }
            None => *top = Top::ended(),
        }
    }

    /// Writes where it stands.
    fn show(&self, top: &mut Top)
        requires { self.now.factor ≤ 65536 }
        ensures top { (i : Indexed) → IsLeafOn i self.now → IsTop i top.new (leaf self.now) }
        ensures at { (i : Indexed) → IsLeafOn i self.now → top.new.head ≡ head_of (entries_of i self.now) }
        ensures falls { top.new.greatest ≤ self.now.greatest }
    {
        let wdf = self.cursor.wdf();
        match self.cursor.head() {
            Some(id) => {
                top.head = Head::from(id);
                top.weight = weigh_by(self.factor, self.scheme, u64::from(wdf));
                top.greatest = self.greatest;
            }
            None => {
                top.head = END;
                top.weight = 0;
                top.greatest = 0;
            }
        }
    }
}

/// What the entries of a list can weigh.
fn greatest_of(list: &List, scheme: Scheme, factor: u64) -> Weight
    requires { factor ≤ 65536 }
    ensures { result ≡ leaf_greatest factor scheme (flat list.now) }
{
    if list.length() == 0 {
        return 0;
    }
    weigh_by(factor, scheme, u64::from(list.greatest()))
}

/// How long the list is.
pub fn list_length(index: &Index, source: ListOf) -> u32
    requires { IsThere source index.now.terms }
    ensures value { result ≡ length (list_in index.now source) }
    ensures sorted { AreSorted (list_in index.now source) }
{
    list_of(index, source).length()
}

/// The list.
fn list_of(index: &Index, source: ListOf) -> &List
    requires { IsThere source index.now.terms }
    ensures runs { result.now ≡ runs_of index.now source }
    ensures entries { flat result.now ≡ list_in index.now source }
{
    match source {
        ListOf::Term(number) => index.list(number),
        ListOf::All => index.all(),
    }
}
