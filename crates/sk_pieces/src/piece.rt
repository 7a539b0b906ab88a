//! A piece of a list: few entries in order of their ids.
ghost use Rattle.std.specs.Prelude.{◌≡◌, ◌≤◌, ◌<◌, ◌+◌, ◌⊎◌, [], ◌∷◌, ◌++◌, length, take, drop, true, false, IfOk, IsOk, OnOk, OnErr};
ghost use Rattle.std.specs.Option.{option_map};
ghost use Rattle.sk_sorted.specs.Entries.{AreSorted, RiseAbove, put, without, found, has, from, top_id};

use crate::Copier;
use crate::place::{place_from, place_without_gaps};
use sk_sorted::{Ends, Sorted};
use std::alloc::{AllocError, Global};
use std::fmt::{Debug, Error, Formatter, Write};
use std::marker::Model;

const HALF: usize = 64;

/// At most 128 entries, each an id from 1 and what stands with it. `Debug` tells how many there are, and shows none.
#[derive(Drop)]
pub struct Piece<T> {
    entries: Sorted<T>,
}

impl<T> Model for Piece<T> {
    ghost use Rattle.std.specs.Prelude.{◌≤◌, List, ℕ, length};
    ghost use Rattle.std.specs.Coded.{coded_list, coded×, coded_ℕ};

    ghost Value = { List (ℕ × T) };

    ghost coded = { coded_list (coded× coded_ℕ T.code) };

    ghost view = { λ p. p.entries };

    ghost invariant = { λ p. length p.entries ≤ 128 };
}

impl<T> Piece<T> {
    /// The entries.
    pub fn as_slice(&self) -> &[(u32, T)]
        ensures value { result.now ≡ self.now }
        ensures sound { AreSorted self.now }
    {
        self.entries.as_slice()
    }

    /// How many entries there are.
    pub fn count(&self) -> u32
        ensures value { result ≡ length self.now }
        ensures few { length self.now ≤ 128 }
        ensures sound { AreSorted self.now }
    {
        let _entries = &self.entries;
        self.entries.length()
    }

    /// The last id, 0 where there is none. It looks at the last entry alone.
    pub fn last(&self) -> u32
        ensures { result ≡ top_id 0 self.now }
    {
        self.entries.last()
    }

    /// What stands with the id.
    pub fn get(&self, id: u32) -> Option<&T>
        ensures { option_map (λ x. x.now) result ≡ found id self.now }
    {
        let entries = self.entries.as_slice();
        match place_without_gaps(entries, id) {
            Some(at) => Some(&entries[at].1),
            None => self.entries.get(id),
        }
    }

    /// The place of the first entry from this place on whose id is at least `id`. It looks at ids alone.
    pub fn place_from(&self, place: u32, id: u32) -> u32
        requires { place ≤ length self.now }
        ensures left { drop result self.now ≡ from id (drop place self.now) }
        ensures behind { place ≤ result }
        ensures within { result ≤ length self.now }
    {
        let passed = place_from(&self.entries.as_slice()[place as usize..], id);
        place + passed as u32
    }

    /// Whether there is an entry of the id.
    pub(crate) fn has(&self, id: u32) -> bool
        ensures { result ≡ has id self.now }
    {
        self.entries.get(id).is_some()
    }
}

impl<T: Drop> Piece<T> {
    /// One entry.
    pub(crate) fn one(alloc: Global, id: u32, x: T) -> Result<Piece<T>, AllocError>
        requires { 1 ≤ id }
        ensures { IfOk result (λ p. p ≡ (id, x) ∷ []) }
    {
        let mut entries = Sorted::new(alloc);
        entries.put(id, x)?;
        Ok(Piece { entries })
    }

    /// The same entries, in memory of their own.
    pub(crate) fn copy<C: Copier<T>>(
        &self,
        alloc: Global,
        copier: &C,
    ) -> Result<Piece<T>, AllocError>
        ensures { IfOk result (λ copy. copy ≡ self.now) }
    {
        let entries = copies_of(alloc, self.entries.as_slice(), copier)?;
        Ok(Piece { entries })
    }

    /// Puts this with the id, in constant time where that is above all others. Only a new entry takes memory.
    pub(crate) fn put(&mut self, id: u32, x: T) -> Result<(), AllocError>
        requires id { 1 ≤ id }
        requires room { (has id self.old ≡ true) ⊎ (length self.old < 128) }
        ensures ok { OnOk result (self.new ≡ put id x self.old) }
        ensures err { OnErr result (self.new ≡ self.old) }
        ensures succeeds { has id self.old ≡ true → IsOk result }
    {
        let _sound = self.entries.length();
        self.entries.put(id, x)?;
        Ok(())
    }

    /// Takes the id's entry out, and answers what stood with it. It takes no memory.
    pub(crate) fn remove(&mut self, id: u32) -> Option<T>
        ensures after { self.new ≡ without id self.old }
        ensures gone { result ≡ found id self.old }
    {
        self.entries.remove(id)
    }

    /// Puts this with the id, which has no entry, and gives away what then stands behind the first 64 entries.
    pub(crate) fn put_and_halve(&mut self, id: u32, x: T) -> Result<Piece<T>, AllocError>
        requires id { 1 ≤ id }
        requires new { has id self.old ≡ false }
        requires full { length self.old ≡ 128 }
        ensures ok { OnOk result (self.new ≡ take 64 (put id x self.old)) }
        ensures rest { IfOk result (λ rest. rest ≡ drop 64 (put id x self.old)) }
        ensures err { OnErr result (self.new ≡ self.old) }
    {
        let _ = self.entries.put(id, x)?;
        let entries = match self.entries.split_off(HALF) {
            Ok(entries) => entries,
            Err(error) => {
                let _ = self.entries.remove(id);
                return Err(error);
            }
        };
        Ok(Piece { entries })
    }

    /// Takes the entries of the next piece, which are behind its own, where it has room for them, and answers whether it
    /// did. It takes no memory.
    pub(crate) fn join(&mut self, next: &mut Piece<T>) -> bool
        requires rise { RiseAbove (top_id 0 self.old) next.old }
        requires few { length self.old + length next.old ≤ 128 }
        ensures joined { result ≡ true → self.new ≡ self.old ++ next.old }
        ensures emptied { result ≡ true → next.new ≡ [] }
        ensures same { result ≡ false → self.new ≡ self.old }
        ensures rest { result ≡ false → next.new ≡ next.old }
    {
        self.entries.append(&mut next.entries)
    }
}

impl<T> Ends for Piece<T> {
    ghost end = { top_id 0 };

    fn end(&self) -> u32 {
        self.last()
    }
}

impl<T> Debug for Piece<T> {
    fn fmt<W: Write>(&self, f: &mut Formatter<W>) -> Result<(), Error> {
        write!(f, "Piece of {}", self.count())
    }
}

/// The same entries, in memory of their own. Each is put behind all others.
fn copies_of<T: Drop, C: Copier<T>>(
    alloc: Global,
    entries: &[(u32, T)],
    copier: &C,
) -> Result<Sorted<T>, AllocError>
    requires { AreSorted entries.now }
    ensures { IfOk result (λ copies. copies ≡ entries.now) }
{
    let mut copies = Sorted::new(alloc);
    'entries: for entry in entries {
        let x = copier.copy(&entry.1)?;
        copies.put(entry.0, x)?;
    }
    Ok(copies)
}
