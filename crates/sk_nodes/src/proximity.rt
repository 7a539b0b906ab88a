//! Terms that have to stand near, or as a phrase.
ghost use Rattle.std.specs.Prelude.{◌≡◌, ◌≤◌, ◌<◌, ◌+◌, ◌-◌, ◌^◌, true, false, max, length, Some, None, IfOk, IfSome};
ghost use Rattle.sk_model.specs.Combining.{where_so};
ghost use Rattle.sk_model.specs.Positions.{is_near, is_phrase};
ghost use Rattle.sk_nodes.specs.Accounts.{Spends};
ghost use Rattle.sk_nodes.specs.Skips.{WeighsBelow};
ghost use Rattle.sk_nodes.specs.Proximity.{positions_in, holds_in, entries_unread, AreThere, IsInAll, IsFollowed, CanTest, IsSameTest, IsTestOf};
ghost use Rattle.sk_nodes.specs.Repeats.{HaveSame, AreRunEnds};

use crate::repeats::{PlacesInRuns, each_once, run_ends};
use crate::top::Top;
use sk_base::{DocId, Weight};
use sk_decay::Head;
use sk_index::{AllPlaces, Index, TermPlace};
use sk_near::{near, phrase};
use sk_steps::Steps;
use std::alloc::{AllocError, Global};
use std::sync::ledger::Ledger;

/// A phrase is looked for by one of so many pairs of terms.
const FEW_PAIRS: usize = 4;

/// How terms have to stand.
#[derive(Clone, Copy, Debug)]
pub enum ProximityKind {
    Near,
    Phrase,
}

/// A test of documents that have all of some terms, by their numbers: whether these stand so. No document before `next`
/// is read any more. Near wants each number once, a phrase where runs of equal ones end, and which two of the terms, one
/// behind the other, it looks at first. The marks are memory for a place of each term among its positions, the places for
/// one among the terms of a document.
#[derive(Drop)]
pub struct Proximity {
    pub kind: ProximityKind,
    pub window: u32,
    pub numbers: Vec<usize>,
    once: Vec<usize>,
    ends: Vec<usize>,
    pair: usize,
    marks: Vec<u32>,
    places: Vec<TermPlace>,
    pub next: Head,
}

impl Proximity {
    /// A test before its first document.
    pub fn new(
        alloc: Global,
        index: &Index,
        kind: ProximityKind,
        window: u32,
        numbers: Vec<usize>,
    ) -> Result<Proximity, AllocError>
        requires there { AreThere index.now numbers.items }
        ensures { IfOk result (IsTestOf kind window numbers.items) }
    {
        let once = each_once(alloc, numbers.as_slice())?;
        let ends = run_ends(alloc, numbers.as_slice())?;
        let pair = rarest_pair(index, numbers.as_slice());
        let marks = Vec::from_elem(alloc, 0, numbers.len())?;
        let places = Vec::from_elem(alloc, TermPlace::new(), numbers.len())?;
        Ok(Proximity {
            kind,
            window,
            numbers,
            once,
            ends,
            pair,
            marks,
            places,
            next: 0,
        })
    }

    /// Whether the document at a head weighs what is needed, and the terms, which it all has, stand so in it. In one that
    /// weighs less nothing is read.
    pub(crate) fn passes<L: Ledger>(
        &mut self,
        index: &Index,
        below: &Top,
        need: Weight,
        spent: &mut u128,
        steps: &mut Steps<L>,
    ) -> bool
        requires test { CanTest index.now self.old }
        requires head { below.now.head < 2 ^ 32 }
        requires all { IsInAll index.now below.now.head self.old.numbers.items }
        requires known { below.now.head < self.old.next → holds_in index.now self.old below.now.head ≡ true }
        requires room { spent.old + entries_unread index.now self.old.next self.old.numbers.items < 2 ^ 128 }
        ensures holds { result ≡ true → holds_in index.now self.old below.now.head ≡ true }
        ensures fails { result ≡ false → WeighsBelow need (where_so (holds_in index.now self.old below.now.head) (Some below.now.weight)) }
        ensures same { IsSameTest self.old self.new }
        ensures next { self.new.next ≤ max self.old.next (below.now.head + 1) }
        ensures spends { Spends (entries_unread index.now self.old.next self.old.numbers.items) (entries_unread index.now self.new.next self.old.numbers.items) spent.old spent.new steps.old steps.new }
    {
        if below.weight < need {
            return false;
        }
        self.holds(index, below.head, spent, steps)
    }

    /// Whether the terms stand so in the document, which has them all. It reads the positions of each term once, and
    /// those of a document before `next` not again.
    pub(crate) fn holds<L: Ledger>(
        &mut self,
        index: &Index,
        head: Head,
        spent: &mut u128,
        steps: &mut Steps<L>,
    ) -> bool
        requires test { CanTest index.now self.old }
        requires head { head < 2 ^ 32 }
        requires all { IsInAll index.now head self.old.numbers.items }
        requires known { head < self.old.next → holds_in index.now self.old head ≡ true }
        requires room { spent.old + entries_unread index.now self.old.next self.old.numbers.items < 2 ^ 128 }
        ensures value { result ≡ holds_in index.now self.old head }
        ensures same { IsSameTest self.old self.new }
        ensures next { self.new.next ≡ max self.old.next (head + 1) }
        ensures spends { Spends (entries_unread index.now self.old.next self.old.numbers.items) (entries_unread index.now self.new.next self.old.numbers.items) spent.old spent.new steps.old steps.new }
    {
        if head < self.next {
            return true;
        }
        self.next = head + 1;
        *spent += self.numbers.len() as u128;
        let numbers = self.numbers.as_slice();
        let marks = self.marks.as_mut_slice();
        let places = self.places.as_mut_slice();
        let id = head as DocId;
        match self.kind {
            ProximityKind::Near => {
                let once = self.once.as_slice();
                stand_near(self.window, numbers, once, marks, places, index, id, steps)
            }
            ProximityKind::Phrase => {
                let ends = self.ends.as_slice();
                stand_as_phrase(
                    self.window,
                    numbers,
                    self.pair,
                    ends,
                    marks,
                    places,
                    index,
                    id,
                    steps,
                )
            }
        }
    }
}

/// Whether the terms stand near in the document, by their positions. They may coincide, so a term that comes again makes
/// no difference to the test; the rule counts it again.
fn stand_near<L: Ledger>(
    window: u32,
    numbers: &[usize],
    once: &[usize],
    marks: &mut [u32],
    places: &mut [TermPlace],
    index: &Index,
    id: DocId,
    steps: &mut Steps<L>,
) -> bool
    requires some { 1 ≤ length numbers.now }
    requires wide { 1 ≤ window }
    requires marks { length numbers.now ≤ length marks.old }
    requires places { length numbers.now ≤ length places.old }
    requires there { AreThere index.now numbers.now }
    requires once { HaveSame numbers.now once.now }
    ensures value { result ≡ is_near window (positions_in index.now numbers.now id) }
    ensures cost { steps.new ≡ steps.old + length numbers.now }
{
    'again: for _ in 0..numbers.len() - once.len() {
        steps.tick();
    }
    let places = index.all_places(once, id, places, steps);
    near(&places, window, marks)
}

/// Whether the terms stand as a phrase in the document, by their positions, which are read once. In most documents the pair
/// is too far apart, and the positions of the others are not looked up.
fn stand_as_phrase<L: Ledger>(
    window: u32,
    numbers: &[usize],
    pair: usize,
    ends: &[usize],
    marks: &mut [u32],
    places: &mut [TermPlace],
    index: &Index,
    id: DocId,
    steps: &mut Steps<L>,
) -> bool
    requires some { 1 ≤ length numbers.now }
    requires wide { 1 ≤ window }
    requires marks { length numbers.now ≤ length marks.old }
    requires places { length numbers.now ≤ length places.old }
    requires there { AreThere index.now numbers.now }
    requires pair { IsFollowed pair numbers.now }
    requires ends { AreRunEnds ends.now numbers.now }
    ensures value { result ≡ is_phrase window (positions_in index.now numbers.now id) }
    ensures cost { steps.new ≡ steps.old + length numbers.now }
{
    let Some(places) = phrase_places(window, numbers, pair, places, index, id, steps) else {
        return false;
    };
    phrase(&PlacesInRuns::new(places, ends), window, marks)
}

/// The places of the terms in the document; or nothing, where the pair is too far apart for a phrase.
fn phrase_places<'a, L: Ledger>(
    window: u32,
    numbers: &[usize],
    pair: usize,
    places: &'a mut [TermPlace],
    index: &'a Index,
    id: DocId,
    steps: &mut Steps<L>,
) -> Option<AllPlaces<'a>>
    requires places { length numbers.now ≤ length places.old }
    requires there { AreThere index.now numbers.now }
    requires pair { IsFollowed pair numbers.now }
    ensures value { IfSome result (λ all. all ≡ positions_in index.now numbers.now id) }
    ensures fails { result ≡ None → is_phrase window (positions_in index.now numbers.now id) ≡ false }
    ensures cost { steps.new ≡ steps.old + length numbers.now }
{
    if numbers.len() < 2 {
        return Some(index.all_places(numbers, id, places, steps));
    }
    let width = pair_width(window, numbers.len());
    index.all_places_unless_apart(numbers, pair, width, id, places, steps)
}

/// Of the first few terms, one that stands with the one behind it in few documents, going by how many have each.
fn rarest_pair(index: &Index, numbers: &[usize]) -> usize
    requires { AreThere index.now numbers.now }
    ensures { IsFollowed result numbers.now }
{
    let mut rarest = 0;
    let mut least = u64::MAX;
    'pairs: for i in 0..numbers.len().saturating_sub(1).min(FEW_PAIRS) {
        let first = index.list(numbers[i]).length();
        let second = index.list(numbers[i + 1]).length();
        let both = u64::from(first).saturating_mul(u64::from(second));
        if both < least {
            least = both;
            rarest = i;
        }
    }
    rarest
}

/// What is left of the window for two of so many terms, each of the others taking one place of it at least.
fn pair_width(window: u32, terms: usize) -> u32
    ensures { result ≡ window - (terms - 2) }
{
    let others = terms.saturating_sub(2);
    if others < window as usize {
        window - others as u32
    } else {
        0
    }
}
