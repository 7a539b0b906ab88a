//! The searches in flight, by number.
ghost use Rattle.std.specs.Prelude.{◌≡◌, ◌+◌, length, map, IfOk, IfSome, OnOk};
ghost use Rattle.std.specs.Map.{keys_of};
ghost use Rattle.std.specs.Option.{option_copied};
ghost use Rattle.sk_base.specs.Commands.{FitsTurns};
ghost use Rattle.sk_report.specs.Flights.{none_open, open_at, without_search, owed, readings_open, AllMay};
ghost use Rattle.sk_reference.specs.Searches.{Stands, TurnsTo, with_search};

use crate::search::Search;
use sk_base::Items;
use std::alloc::{AllocError, Global};
use std::collections::BTreeMap;
use std::marker::Model;

/// The searches in flight under their numbers, and how many were opened so far.
#[derive(Debug, Drop)]
pub struct Flights {
    searches: BTreeMap<u64, Search>,
    opened: u64,
}

impl Model for Flights {
    ghost use Rattle.std.specs.Coded.{codes};
    ghost use Rattle.sk_codes.specs.Codes.{coded_tree};
    ghost use Rattle.sk_report.specs.Flights.{Flights as Seen};
    ghost use Rattle.sk_reference.specs.Searches.{AreKept};

    ghost Value = { Seen };

    ghost coded = { Prim.hlevel (codes, coded_tree) };

    ghost view = { λ f. record { searches = f.searches.entries; opened = f.opened } };

    ghost invariant = { λ f. AreKept (record { searches = f.searches.entries; opened = f.opened }) };
}

impl Flights {
    /// No search.
    pub fn new(alloc: Global) -> Flights
        ensures { result ≡ none_open }
    {
        Flights {
            searches: BTreeMap::new(alloc),
            opened: 0,
        }
    }

    /// How many are open.
    pub fn count(&self) -> usize
        ensures { result ≡ length self.now.searches }
    {
        self.searches.len()
    }

    /// Takes in a search under the next number. Where no number is left it fails as where memory runs out.
    pub fn open(&mut self, search: Search) -> Result<u64, AllocError>
        requires { Stands search }
        ensures number { IfOk result (λ number. number ≡ self.old.opened + 1) }
        ensures opened { OnOk result (self.new ≡ with_search search self.old) }
        ensures unread { owed self.new ≡ owed self.old }
    {
        let number = self.opened.checked_add(1).ok_or(AllocError)?;
        drop(self.searches.insert(number, search)?);
        self.opened = number;
        Ok(number)
    }

    /// The search with this number.
    pub fn get(&self, number: u64) -> Option<&Search>
        ensures value { option_copied result ≡ open_at number self.now }
        ensures stands { IfSome result (λ search. Stands search.now) }
    {
        self.searches.get(&number)
    }

    /// So many turns of the search with this number, as far as they move on: whether it is done.
    #[tactic(auto, using(crate::proofs::FlightLaws::turns_as))]
    pub fn turn(&mut self, number: u64, times: u32) -> Option<bool>
        requires { FitsTurns times }
        ensures turns { TurnsTo number times self.old result self.new }
        ensures unread { owed self.new ≡ owed self.old }
    {
        let search = self.searches.get_mut(&number)?;
        search.turn(times);
        Some(search.is_done())
    }

    /// Takes out the search with this number.
    pub fn remove(&mut self, number: u64) -> Option<Search>
        ensures value { result ≡ open_at number self.old }
        ensures stands { IfSome result Stands }
        ensures left { self.new ≡ without_search number self.old }
        ensures unread { owed self.new ≡ owed self.old }
    {
        self.searches.remove(&number)
    }

    /// Each number with the readings of its search, which are none.
    pub fn readings(&self, alloc: Global) -> Result<Items<(u64, u128)>, AllocError>
        ensures value { IfOk result (λ readings. readings ≡ readings_open self.now) }
        ensures may { AllMay Stands self.now }
    {
        let readings = none_each(alloc, &self.searches)?;
        Ok(Items::from_vec(readings))
    }
}

/// Each number with no reading.
fn none_each(
    alloc: Global,
    searches: &BTreeMap<u64, Search>,
) -> Result<Vec<(u64, u128)>, AllocError>
    ensures { IfOk result (λ readings. readings.items ≡ map (λ number. (number, 0)) (keys_of searches.now.entries)) }
{
    let mut readings = Vec::new(alloc);
    'searches: for number in searches.keys() {
        readings.push((*number, 0))?;
    }
    Ok(readings)
}
