//! Where a term stands in a document.
ghost use Rattle.std.specs.Prelude.{◌≡◌, ◌<◌, ◌≤◌, ◌+◌, ◌^◌, [], length, bytes_eq, if◌then◌else◌};
ghost use Rattle.std.specs.Ordering.{is_lt};
ghost use Rattle.sk_base.specs.Order.{ArePositions};
ghost use Rattle.sk_base.specs.Documents.{AreTerms, positions_of};
ghost use Rattle.sk_dict.specs.Terms.{term_at, term_cmp};
ghost use Rattle.sk_packed.specs.Packed.{AreKnown, numbered_at, positions_at_place};
ghost use Rattle.sk_terms.specs.Named.{named_all};
ghost use Rattle.sk_index.specs.Placed.{IsBetween};

use sk_base::DocId;
use sk_packed::PackedTerms;
use sk_steps::Steps;
use sk_terms::TermLists;
use std::cmp::Ordering;
use std::marker::Model;
use std::sync::ledger::Ledger;

/// Among so many terms one is found sooner by its number than by halves.
const FEW: usize = 128;
/// A share of the size of a document is told in so many parts of all.
const WHOLE: usize = 65_536;
/// So many parts a share moves for each place that the term stands off: in a size of 256 an eighth of the way.
const STEP: u32 = 32;

/// Where a term stands among those of a document, and about how many stand before it in most documents, as a share of what
/// numbers the document takes. The size is known before any of these is looked at, so that who guesses by it looks at the
/// count of terms and at the guessed place at once.
#[derive(Clone, Copy, Debug)]
pub struct TermPlace {
    pub at: u32,
    share: u32,
}

impl TermPlace {
    /// Of a term of which no document is known.
    pub fn new() -> TermPlace
        ensures { result ≡ record { at = 0; share = 0 } }
    {
        TermPlace { at: 0, share: 0 }
    }

    /// About where the term stands in a document of few terms and of this size.
    fn near(&self, size: usize) -> usize
        ensures { result < 2 ^ 32 }
    {
        let before = (self.share as usize).saturating_mul(size) / WHOLE;
        before.min(FEW)
    }

    /// The term stands there, and was looked for from that place on.
    fn found(&self, at: u32, near: u32) -> TermPlace
        ensures { result.at ≡ at }
    {
        let share = if near < at {
            self.share.saturating_add((at - near).saturating_mul(STEP))
        } else {
            self.share.saturating_sub((near - at).saturating_mul(STEP))
        };
        TermPlace { at, share }
    }
}

/// The places of a term in a document. Contracts see the term's number and the document's id; only `Index::places`
/// makes one.
#[derive(Clone, Copy, Debug)]
pub struct Places {
    pub(crate) number: usize,
    pub(crate) id: DocId,
}

impl Model for Places {
    ghost use Rattle.std.specs.Prelude.{ℕ};

    ghost Value = { ℕ × ℕ };

    ghost view = { λ p. (p.number, p.id) };

    ghost inverse = { λ v. record { number = v.0; id = v.1 } };
}

impl Places {
    /// It is one reading.
    pub(crate) fn read<L: Ledger>(number: usize, id: DocId, steps: &mut Steps<L>) -> Places
        ensures value { result ≡ (number, id) }
        ensures cost { steps.new ≡ steps.old + 1 }
    {
        steps.tick();
        Places { number, id }
    }
}

/// The positions of the term in a document with these terms, none where it has not the term. It searches by halves.
pub(crate) fn positions_in<'a>(packed: &'a PackedTerms, lists: &TermLists, term: &[u8]) -> &'a [u32]
    requires known { AreKnown (length lists.now.terms) packed.now }
    requires rising { AreTerms (named_all lists.now.terms packed.now) }
    ensures value { result.now ≡ positions_of term.now (named_all lists.now.terms packed.now) }
    ensures rising { ArePositions result.now }
{
    packed.positions_at(place_by_text(packed, lists, term))
}

/// Where the term with this number stands among the terms of a document; a place behind them all where it is none of
/// them. Among few terms its number is compared with theirs one by one, to both sides from about where it stands in other
/// documents; among many its text by halves.
pub(crate) fn place_in(
    packed: &PackedTerms,
    lists: &TermLists,
    number: usize,
    last: TermPlace,
) -> TermPlace
    requires there { number < length lists.now.terms }
    requires known { AreKnown (length lists.now.terms) packed.now }
    requires rising { AreTerms (named_all lists.now.terms packed.now) }
    ensures { positions_at_place packed.now result.at ≡ positions_of (term_at lists.now.terms number) (named_all lists.now.terms packed.now) }
{
    let term = lists.term(number);
    if packed.len() <= FEW {
        let near = last.near(packed.size());
        last.found(packed.place_of(number, near) as u32, near as u32)
    } else {
        let at = place_by_text(packed, lists, term) as u32;
        TermPlace { at, ..last }
    }
}

/// The place of the term, or the number of terms.
fn place_by_text(packed: &PackedTerms, lists: &TermLists, term: &[u8]) -> usize
    requires known { AreKnown (length lists.now.terms) packed.now }
    requires rising { AreTerms (named_all lists.now.terms packed.now) }
    ensures within { result ≤ length packed.now }
    ensures value { positions_at_place packed.now result ≡ positions_of term.now (named_all lists.now.terms packed.now) }
{
    let place = place_of(packed, lists, term);
    if place < packed.len() {
        place_if(packed, place, lists, term)
    } else {
        place
    }
}

/// The place, if the term stands there, or the number of terms.
fn place_if(packed: &PackedTerms, place: usize, lists: &TermLists, term: &[u8]) -> usize
    requires there { place < length packed.now }
    requires known { AreKnown (length lists.now.terms) packed.now }
    ensures within { result ≤ length packed.now }
    ensures value { positions_at_place packed.now result ≡ (if bytes_eq (term_at lists.now.terms (numbered_at packed.now place).number) term.now then positions_at_place packed.now place else []) }
{
    if lists.term(packed.number(place)) == term {
        place
    } else {
        packed.len()
    }
}

/// How many of the terms stand before the term.
fn place_of(packed: &PackedTerms, lists: &TermLists, term: &[u8]) -> usize
    requires known { AreKnown (length lists.now.terms) packed.now }
    requires rising { AreTerms (named_all lists.now.terms packed.now) }
    ensures { IsBetween term.now (named_all lists.now.terms packed.now) result result }
{
    let mut low = 0;
    let mut high = packed.len();
    'halves: while low < high {
        let middle = low + (high - low) / 2;
        if is_before(lists.term(packed.number(middle)), term) {
            low = middle + 1;
        } else {
            high = middle;
        }
    }
    low
}

fn is_before(one: &[u8], term: &[u8]) -> bool
    ensures { result ≡ is_lt (term_cmp one.now term.now) }
{
    match one.cmp(term) {
        Ordering::Less => true,
        Ordering::Equal => false,
        Ordering::Greater => false,
    }
}
