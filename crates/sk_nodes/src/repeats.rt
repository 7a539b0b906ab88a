//! Terms that come more than once among those that have to stand near, or as a phrase.
ghost use Rattle.std.specs.Prelude.{◌≡◌, IfOk};
ghost use Rattle.sk_nodes.specs.Repeats.{HaveSame, AreRunEnds};

use sk_base::Operands;
use sk_index::AllPlaces;
use sk_near::Runs;
use std::alloc::{AllocError, Global};
use std::marker::Model;

/// The numbers without those that came before.
pub(crate) fn each_once(alloc: Global, numbers: &[usize]) -> Result<Vec<usize>, AllocError>
    ensures { IfOk result (λ once. HaveSame numbers.now once.items) }
{
    let mut once = Vec::new(alloc);
    'numbers: for number in numbers {
        if !once.as_slice().contains(number) {
            once.push(*number)?;
        }
    }
    Ok(once)
}

/// For each number, where the run of equal ones ends that begins with it.
pub(crate) fn run_ends(alloc: Global, numbers: &[usize]) -> Result<Vec<usize>, AllocError>
    ensures { IfOk result (λ ends. AreRunEnds ends.items numbers.now) }
{
    let mut ends = Vec::from_elem(alloc, numbers.len(), numbers.len())?;
    let mut i = numbers.len();
    'numbers: while i > 1 {
        i -= 1;
        ends[i - 1] = if numbers[i - 1] == numbers[i] {
            ends[i]
        } else {
            i
        };
    }
    Ok(ends)
}

/// The places of several terms in a document, with the ends of their runs. Contracts see the positions of each.
#[derive(Drop)]
pub(crate) struct PlacesInRuns<'a> {
    places: AllPlaces<'a>,
    ends: &'a [usize],
}

impl<'a> Model for PlacesInRuns<'a> {
    ghost use Rattle.std.specs.Prelude.{ℕ, List};
    ghost use Rattle.sk_nodes.specs.Repeats.{AreRunEnds};

    ghost Value = { List (List ℕ) };

    ghost view = { λ p. p.places };

    ghost invariant = { λ p. AreRunEnds p.ends.now p.places };
}

impl<'a> PlacesInRuns<'a> {
    pub fn new(places: AllPlaces<'a>, ends: &'a [usize]) -> PlacesInRuns<'a>
        requires { AreRunEnds ends.now places }
        ensures { result ≡ places.entry }
    {
        PlacesInRuns { places, ends }
    }
}

impl<'a> Operands for PlacesInRuns<'a> {
    ghost places = { λ p. p };

    fn count(&self) -> usize {
        self.places.count()
    }

    fn positions(&self, i: usize) -> &[u32] {
        self.places.positions(i)
    }
}

impl<'a> Runs for PlacesInRuns<'a> {
    fn run_end(&self, i: usize) -> usize {
        let ends = self.ends;
        ends[i]
    }
}
