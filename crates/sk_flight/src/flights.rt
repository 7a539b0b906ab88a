//! The open searches, and the documents that stand now.
ghost use Rattle.std.specs.Prelude.{◌≡◌, ◌≤◌, ◌<◌, ◌+◌, ◌^◌, ℕ, length, true, All, IfOk, IfSome, IsOk, None, OnOk, OnErr, unwrap_or};
ghost use Rattle.std.specs.Map.{lookup, remove_entry, values_of};
ghost use Rattle.std.specs.Option.{option_map};
ghost use Rattle.sk_base.specs.Finds.{FitsPaging};
ghost use Rattle.sk_base.specs.Records.{FitsEdit};
ghost use Rattle.sk_query.specs.Trees.{query_view};
ghost use Rattle.sk_query.specs.Fits.{fits_tree};
ghost use Rattle.sk_model.specs.Edits.{edited, reply_to};
ghost use Rattle.sk_report.specs.Flights.{MayBeOpen, AllMay, none_open, most_open, at, open_at, without_search, owed, readings_open};
ghost use Rattle.sk_flight.specs.Kept.{IsFlight, AreFlights, flights_in, spent_in};
ghost use Rattle.sk_flight.specs.Told.{Opens, Turns, Ends, Drops, steps_in};

use crate::flight::Flight;
use sk_base::{Edit, Paging, Reply, Report};
use sk_index::Index;
use sk_match::Turn;
use sk_query::Query;
use sk_steps::Steps;
use std::alloc::{AllocError, Global};
use std::collections::BTreeMap;
use std::fmt::{Debug, Error, Formatter, Write};
use std::marker::Model;
use std::rc::Rc;
use std::sync::ledger::Ledger;

/// How many searches may be open.
const MOST: usize = 64;

/// The newest documents, and the searches that are open, each on the documents of its opening.
#[derive(Drop)]
pub struct Flights {
    alloc: Global,
    newest: Rc<Index>,
    flights: BTreeMap<u64, Flight>,
    /// How many searches were opened so far.
    opened: u64,
}

impl Model for Flights {
    ghost use Rattle.std.specs.Coded.{codes};
    ghost use Rattle.sk_codes.specs.Codes.{coded_tree};
    ghost use Rattle.sk_flight.specs.Flying.{Flying};
    ghost use Rattle.sk_flight.specs.Kept.{AreFlights, flights_in};

    ghost Value = { Flying };

    ghost coded = { Prim.hlevel (codes, coded_tree) };

    ghost view = { λ f. record { newest = f.newest.value; flights = flights_in f.flights.entries f.opened } };

    ghost invariant = { λ f. AreFlights f.opened f.flights.entries };
}

/// What an opening came to.
#[derive(Clone, Copy, Debug, PartialEq, Eq)]
pub enum Opened {
    /// The search has this number.
    Number(u64),
    /// As many are open as may be.
    Full,
}

/// What the end of a search came to.
#[derive(Debug, Drop)]
pub enum Finish {
    NotOpen,
    /// Its last turn was not done, or it had none.
    NotDone,
    /// The page that it was opened for, and the report.
    Found(Paging, Report),
}

impl Flights {
    /// No open search.
    pub fn new(alloc: Global, index: Index) -> Result<Flights, AllocError>
        ensures { IfOk result (λ flights. flights ≡ record { newest = index; flights = none_open }) }
    {
        Ok(Flights {
            alloc,
            newest: Rc::new(alloc, index)?,
            flights: BTreeMap::new(alloc),
            opened: 0,
        })
    }

    /// The newest documents.
    pub fn index(&self) -> &Index
        ensures { result.now ≡ self.now.newest }
    {
        self.newest.as_ref()
    }

    /// How many searches were opened so far. None that is open has a greater number.
    pub fn opened(&self) -> u64
        ensures value { result ≡ self.now.flights.opened }
        ensures fresh { (number : ℕ) → self.now.flights.opened < number → open_at number self.now.flights ≡ None }
    {
        self.opened
    }

    /// How many searches are open.
    pub fn open_now(&self) -> u32
        ensures value { result ≡ length self.now.flights.searches }
        ensures few { length self.now.flights.searches ≤ most_open }
    {
        self.flights.len() as u32
    }

    /// Changes the newest documents; every open search stays as it is. Where memory runs out all is given up.
    pub fn apply(self, edit: Edit) -> Result<(Flights, Reply), AllocError>
        requires fits { FitsEdit self.newest.schema edit }
        ensures live { IfOk result (λ p. p.0.newest.live ≡ edited self.newest.schema self.newest.live edit) }
        ensures reply { IfOk result (λ p. p.1 ≡ reply_to self.newest.live edit) }
        ensures schema { IfOk result (λ p. p.0.newest.schema ≡ self.newest.schema) }
        ensures flights { IfOk result (λ p. p.0.flights ≡ self.flights) }
    {
        let Flights {
            alloc,
            newest,
            flights,
            opened,
        } = self;
        let (newest, reply) = edit_newest(alloc, newest, edit)?;
        Ok((
            Flights {
                alloc,
                newest,
                flights,
                opened,
            },
            reply,
        ))
    }

    /// Opens a search on the newest documents.
    pub fn open<L: Ledger>(
        &mut self,
        paging: Paging,
        query: Query,
        steps: &mut Steps<L>,
    ) -> Result<Opened, AllocError>
        requires fits { fits_tree (query_view query) ≡ true }
        requires paging { FitsPaging paging }
        requires left { self.old.flights.opened + 1 < 2 ^ 64 }
        ensures opens { IfOk result (λ opened. Opens paging (query_view query) self.old self.new opened) }
        ensures full { most_open ≤ length self.old.flights.searches → IsOk result }
        ensures err { OnErr result (self.new ≡ self.old) }
        ensures cost { OnOk result (steps.new + owed self.old.flights ≡ steps.old + owed self.new.flights) }
        ensures later { steps.old ≤ steps.new }
    {
        if self.flights.len() >= MOST {
            drop(query);
            return Ok(Opened::Full);
        }
        let Ok(revision) = self.newest.clone() else {
            drop(query);
            return Err(AllocError);
        };
        let flight = Flight::open(self.alloc, revision, paging, query, steps)?;
        let number = self.opened + 1;
        drop(self.flights.insert(number, flight)?);
        self.opened = number;
        Ok(Opened::Number(number))
    }

    /// One turn of the search with this number, on its own documents. Where memory runs out that search is gone.
    pub fn turn<L: Ledger>(
        &mut self,
        number: u64,
        steps: &mut Steps<L>,
    ) -> Result<Option<Turn>, AllocError>
        ensures turns { IfOk result (λ turn. Turns number 1 self.old.flights self.new.flights turn) }
        ensures succeeds { open_at number self.old.flights ≡ None → IsOk result }
        ensures gone { OnErr result (self.new.flights ≡ without_search number self.old.flights) }
        ensures keeps { self.new.newest ≡ self.old.newest }
        ensures cost { OnOk result (steps.new + owed self.old.flights ≡ steps.old + owed self.new.flights) }
        ensures later { steps.old ≤ steps.new }
    {
        self.turns(number, 1, steps)
    }

    /// So many turns of the search with this number, or fewer where one is done: the last of them. Where memory runs out
    /// that search is gone.
    pub fn turns<L: Ledger>(
        &mut self,
        number: u64,
        times: u32,
        steps: &mut Steps<L>,
    ) -> Result<Option<Turn>, AllocError>
        requires { 1 ≤ times }
        ensures turns { IfOk result (λ turn. Turns number times self.old.flights self.new.flights turn) }
        ensures succeeds { open_at number self.old.flights ≡ None → IsOk result }
        ensures gone { OnErr result (self.new.flights ≡ without_search number self.old.flights) }
        ensures keeps { self.new.newest ≡ self.old.newest }
        ensures cost { OnOk result (steps.new + owed self.old.flights ≡ steps.old + owed self.new.flights) }
        ensures later { steps.old ≤ steps.new }
    {
        turns_of(&mut self.flights, number, times, steps)
    }

    /// The report of the search with this number, which is gone where it is told, and where memory runs out.
    pub fn finish<L: Ledger>(
        &mut self,
        number: u64,
        steps: &mut Steps<L>,
    ) -> Result<Finish, AllocError>
        ensures ends { IfOk result (λ finish. Ends number self.old.flights self.new.flights finish) }
        ensures succeeds { open_at number self.old.flights ≡ None → IsOk result }
        ensures gone { OnErr result (self.new.flights ≡ without_search number self.old.flights) }
        ensures keeps { self.new.newest ≡ self.old.newest }
        ensures cost { IfOk result (λ finish. steps.new + owed self.old.flights ≡ steps.old + (owed self.new.flights + steps_in finish)) }
        ensures later { steps.old ≤ steps.new }
    {
        let Some(is_done) = done_of(&self.flights, number) else {
            return Ok(Finish::NotOpen);
        };
        if !is_done {
            return Ok(Finish::NotDone);
        }
        let Some(flight) = self.flights.remove(&number) else {
            return Ok(Finish::NotOpen);
        };
        let (paging, report) = flight.finish(steps)?;
        Ok(Finish::Found(paging, report))
    }

    /// The readings of the search with this number, which is gone.
    pub fn abandon(&mut self, number: u64) -> Option<u128>
        ensures drops { Drops number self.old.flights self.new.flights result }
        ensures keeps { self.new.newest ≡ self.old.newest }
        ensures told { owed self.old.flights ≡ owed self.new.flights + unwrap_or result 0 }
    {
        let flight = self.flights.remove(&number)?;
        let spent = flight.spent();
        drop(flight);
        Some(spent)
    }

    /// The readings of the search with this number since its opening, and with it.
    pub fn spent(&self, number: u64) -> Option<u128>
        ensures value { result ≡ option_map (λ search. search.spent) (open_at number self.now.flights) }
        ensures may { IfSome (open_at number self.now.flights) MayBeOpen }
    {
        let flight = self.flights.get(&number)?;
        Some(flight.spent())
    }

    /// The numbers of all open searches, rising, each with its readings.
    pub fn readings(&self) -> Result<Vec<(u64, u128)>, AllocError>
        ensures value { IfOk result (λ readings. readings.items ≡ readings_open self.now.flights) }
        ensures may { OnOk result (AllMay MayBeOpen self.now.flights) }
    {
        readings_of(self.alloc, &self.flights)
    }
}

impl Debug for Flights {
    fn fmt<W: Write>(&self, f: &mut Formatter<W>) -> Result<(), Error> {
        write!(f, "{:?}, {} open", self.index(), self.open_now())
    }
}

/// The documents behind an edit, and what it is answered.
fn edit_newest(
    alloc: Global,
    newest: Rc<Index>,
    edit: Edit,
) -> Result<(Rc<Index>, Reply), AllocError>
    requires { FitsEdit newest.value.schema edit }
    ensures live { IfOk result (λ p. p.0.value.live ≡ edited newest.value.schema newest.value.live edit) }
    ensures reply { IfOk result (λ p. p.1 ≡ reply_to newest.value.live edit) }
    ensures schema { IfOk result (λ p. p.0.value.schema ≡ newest.value.schema) }
{
    let Ok(index) = unshared(newest) else {
        drop(edit);
        return Err(AllocError);
    };
    let (index, reply) = index.apply(edit)?;
    let newest = Rc::new(alloc, index)?;
    Ok((newest, reply))
}

/// These documents where no search stands on them, and a copy where one does.
fn unshared(newest: Rc<Index>) -> Result<Index, AllocError>
    ensures { IfOk result (λ index. index ≡ newest.value) }
{
    match Rc::try_unwrap(newest) {
        Ok(index) => Ok(index),
        Err(shared) => shared.as_ref().copy(),
    }
}

/// Whether the last turn of a search was done; none where it is not open.
fn done_of(flights: &BTreeMap<u64, Flight>, number: u64) -> Option<bool>
    ensures { result ≡ option_map (λ f. f.is_done) (lookup (at number) flights.now.entries) }
{
    let flight = flights.get(&number)?;
    Some(flight.is_done())
}

/// So many turns of one, or fewer where one is done. Where memory runs out that search is taken out.
fn turns_of<L: Ledger>(
    flights: &mut BTreeMap<u64, Flight>,
    number: u64,
    times: u32,
    steps: &mut Steps<L>,
) -> Result<Option<Turn>, AllocError>
    requires flights { All IsFlight (values_of flights.old.entries) }
    requires some { 1 ≤ times }
    ensures kept { (opened : ℕ) → AreFlights opened flights.old.entries → AreFlights opened flights.new.entries }
    ensures turns { IfOk result (λ turn. (opened : ℕ) → Turns number times (flights_in flights.old.entries opened) (flights_in flights.new.entries opened) turn) }
    ensures succeeds { (opened : ℕ) → open_at number (flights_in flights.old.entries opened) ≡ None → IsOk result }
    ensures gone { OnErr result (flights.new.entries ≡ remove_entry (at number) flights.old.entries) }
    ensures cost { OnOk result ((opened : ℕ) → steps.new + owed (flights_in flights.old.entries opened) ≡ steps.old + owed (flights_in flights.new.entries opened)) }
    ensures later { steps.old ≤ steps.new }
{
    let Some(flight) = flights.get_mut(&number) else {
        return Ok(None);
    };
    match flight.turns(times, steps) {
        Ok(turn) => Ok(Some(turn)),
        Err(fault) => {
            drop(flights.remove(&number));
            Err(fault)
        }
    }
}

/// The numbers of all of them, each with its readings.
fn readings_of(
    alloc: Global,
    flights: &BTreeMap<u64, Flight>,
) -> Result<Vec<(u64, u128)>, AllocError>
    requires { All IsFlight (values_of flights.now.entries) }
    ensures { IfOk result (λ readings. readings.items ≡ spent_in flights.now.entries) }
{
    let mut readings = Vec::new(alloc);
    'flights: for (number, flight) in flights.iter() {
        readings.push((*number, flight.spent()))?;
    }
    Ok(readings)
}
