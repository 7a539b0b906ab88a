//! Where several terms stand in one document.
ghost use Rattle.std.specs.Prelude.{◌≡◌, ◌≤◌, ◌<◌, ◌+◌, ℕ, [], length, true, map, take, All, IfSome, None, slice_index, slice_index_or};
ghost use Rattle.std.specs.List.{AllPairs};
ghost use Rattle.sk_base.specs.Order.{ArePositions};
ghost use Rattle.sk_base.specs.Documents.{AreTerms, positions_of};
ghost use Rattle.sk_dict.specs.Terms.{term_at};
ghost use Rattle.sk_packed.specs.Apart.{AreApart};
ghost use Rattle.sk_packed.specs.Packed.{AreKnown, positions_at_place};
ghost use Rattle.sk_terms.specs.Named.{named_all};

use crate::places::{TermPlace, place_in};
use sk_base::Operands;
use sk_packed::{PackedTerms, are_apart};
use sk_steps::Steps;
use sk_terms::TermLists;
use std::marker::Model;
use std::sync::ledger::Ledger;

/// The places of several terms in a document. Contracts see the positions of each; only `Index::all_places` makes one.
#[derive(Drop)]
pub struct AllPlaces<'a> {
    packed: &'a PackedTerms,
    /// Where each term stands among those of the document; behind them all where it is none of them.
    places: &'a [TermPlace],
}

impl<'a> Model for AllPlaces<'a> {
    ghost use Rattle.std.specs.Prelude.{ℕ, List, map};
    ghost use Rattle.sk_packed.specs.Packed.{positions_at_place};

    ghost Value = { List (List ℕ) };

    ghost view = { λ p. map (λ place. positions_at_place p.packed.now place.at) p.places.now };
}

impl<'a> AllPlaces<'a> {
    /// It is one reading for each number.
    pub(crate) fn read<L: Ledger>(
        lists: &TermLists,
        packed: &'a PackedTerms,
        numbers: &[usize],
        places: &'a mut [TermPlace],
        steps: &mut Steps<L>,
    ) -> AllPlaces<'a>
        requires there { All (λ n. n < length lists.now.terms) numbers.now }
        requires known { AreKnown (length lists.now.terms) packed.now }
        requires rising { AreTerms (named_all lists.now.terms packed.now) }
        requires room { length numbers.now ≤ length places.old }
        ensures value { result ≡ map (λ n. positions_of (term_at lists.now.terms n) (named_all lists.now.terms packed.now)) numbers.now }
        ensures cost { steps.new ≡ steps.old + length numbers.now }
    {
        count_readings(numbers, steps);
        look_up(lists, packed, numbers, places);
        AllPlaces {
            packed,
            places: &places[..numbers.len()],
        }
    }

    /// The same; or nothing, where no position of the term behind the one at `at` stands behind one of that by less than the
    /// width. Then no other term is looked up. It counts as one reading for each number all the same.
    pub(crate) fn read_unless_apart<L: Ledger>(
        lists: &TermLists,
        packed: &'a PackedTerms,
        numbers: &[usize],
        at: usize,
        width: u32,
        places: &'a mut [TermPlace],
        steps: &mut Steps<L>,
    ) -> Option<AllPlaces<'a>>
        requires two { at + 1 < length numbers.now }
        requires there { All (λ n. n < length lists.now.terms) numbers.now }
        requires known { AreKnown (length lists.now.terms) packed.now }
        requires rising { AreTerms (named_all lists.now.terms packed.now) }
        requires room { length numbers.now ≤ length places.old }
        ensures value { IfSome result (λ all. all ≡ map (λ n. positions_of (term_at lists.now.terms n) (named_all lists.now.terms packed.now)) numbers.now) }
        ensures apart { result ≡ None → AreApart width (positions_of (term_at lists.now.terms (slice_index numbers.now at)) (named_all lists.now.terms packed.now)) (positions_of (term_at lists.now.terms (slice_index numbers.now (at + 1))) (named_all lists.now.terms packed.now)) }
        ensures cost { steps.new ≡ steps.old + length numbers.now }
    {
        count_readings(numbers, steps);
        let first = place_in(packed, lists, numbers[at], places[at]);
        let second = place_in(packed, lists, numbers[at + 1], places[at + 1]);
        places[at] = first;
        places[at + 1] = second;
        let first = packed.positions_at(first.at as usize);
        let second = packed.positions_at(second.at as usize);
        if are_apart(first, second, width) {
            return None;
        }
        look_up(lists, packed, numbers, places);
        Some(AllPlaces {
            packed,
            places: &places[..numbers.len()],
        })
    }
}

impl<'a> Operands for AllPlaces<'a> {
    ghost places = { λ p. p };

    fn count(&self) -> usize {
        self.places.len()
    }

    fn positions(&self, i: usize) -> &[u32] {
        self.packed.positions_at(self.places[i].at as usize)
    }
}

/// Each number is a reading.
fn count_readings<L: Ledger>(numbers: &[usize], steps: &mut Steps<L>)
    ensures { steps.new ≡ steps.old + length numbers.now }
{
    'numbers: for _ in 0..numbers.len() {
        steps.tick();
    }
}

/// Writes the place of each term with these numbers.
fn look_up(lists: &TermLists, packed: &PackedTerms, numbers: &[usize], places: &mut [TermPlace])
    requires there { All (λ n. n < length lists.now.terms) numbers.now }
    requires known { AreKnown (length lists.now.terms) packed.now }
    requires rising { AreTerms (named_all lists.now.terms packed.now) }
    requires room { length numbers.now ≤ length places.old }
    ensures { map (λ place. positions_at_place packed.now place.at) (take (length numbers.now) places.new)
        ≡ map (λ n. positions_of (term_at lists.now.terms n) (named_all lists.now.terms packed.now)) numbers.now }
{
    'terms: for i in 0..numbers.len() {
        places[i] = place_in(packed, lists, numbers[i], places[i]);
    }
}
