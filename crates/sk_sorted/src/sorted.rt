//! A list of entries in order of their ids.
ghost use Rattle.std.specs.Prelude.{◌≡◌, ◌≤◌, [], ◌++◌, length, take, drop, true, false, IfOk, IsOk, OnOk, OnErr};
ghost use Rattle.std.specs.Option.{option_map};
ghost use Rattle.sk_sorted.specs.Entries.{AreSorted, RiseAbove, put, without, found, has, top_id};

use crate::place_of;
use std::alloc::{AllocError, Global};
use std::fmt::{Debug, Error, Formatter, Write};
use std::marker::Model;
use std::mem;

/// Entries, each an id from 1 and what stands with it, no id twice. `Debug` tells how many there are, and shows none.
#[derive(Drop)]
pub struct Sorted<T> {
    entries: Vec<(u32, T)>,
}

impl<T> Model for Sorted<T> {
    ghost use Rattle.std.specs.Prelude.{List, ℕ};
    ghost use Rattle.std.specs.Coded.{coded_list, coded×, coded_ℕ};
    ghost use Rattle.sk_sorted.specs.Entries.{AreSorted};

    ghost Value = { List (ℕ × T) };

    ghost coded = { coded_list (coded× coded_ℕ T.code) };

    ghost view = { λ s. s.entries.items };

    ghost invariant = { λ s. AreSorted s.entries.items };
}

impl<T> Sorted<T> {
    /// No entry. It takes no memory.
    pub fn new(alloc: Global) -> Sorted<T>
        ensures { result ≡ [] }
    {
        Sorted {
            entries: Vec::new(alloc),
        }
    }

    /// The entries.
    pub fn as_slice(&self) -> &[(u32, T)]
        ensures value { result.now ≡ self.now }
        ensures sound { AreSorted self.now }
    {
        self.entries.as_slice()
    }

    /// How many entries there are.
    pub fn length(&self) -> u32
        ensures value { result ≡ length self.now }
        ensures sound { AreSorted self.now }
    {
        self.entries.len() as u32
    }

    /// The last id, 0 where there is none. It looks at the last entry alone.
    pub fn last(&self) -> u32
        ensures { result ≡ top_id 0 self.now }
    {
        match self.entries.last() {
            Some(entry) => entry.0,
            None => 0,
        }
    }

    /// What stands with the id.
    pub fn get(&self, id: u32) -> Option<&T>
        ensures { option_map (λ x. x.now) result ≡ found id self.now }
    {
        match place_of(self.entries.as_slice(), id) {
            Ok(at) => Some(&self.entries[at].1),
            Err(_) => None,
        }
    }
}

impl<T: Drop> Sorted<T> {
    /// Puts this with the id, in constant time where that is above all others, and answers what stood with it before.
    /// Only a new entry takes memory.
    pub fn put(&mut self, id: u32, x: T) -> Result<Option<T>, AllocError>
        requires { 1 ≤ id }
        ensures ok { OnOk result (self.new ≡ put id x self.old) }
        ensures gone { IfOk result (λ gone. gone ≡ found id self.old) }
        ensures err { OnErr result (self.new ≡ self.old) }
        ensures succeeds { has id self.old ≡ true → IsOk result }
    {
        match place_of(self.entries.as_slice(), id) {
            Ok(at) => Ok(Some(mem::replace(&mut self.entries[at].1, x))),
            Err(at) => {
                self.entries.insert(at, (id, x))?;
                Ok(None)
            }
        }
    }

    /// Takes the id's entry out, and answers what stood with it. It takes no memory.
    pub fn remove(&mut self, id: u32) -> Option<T>
        ensures after { self.new ≡ without id self.old }
        ensures gone { result ≡ found id self.old }
    {
        match place_of(self.entries.as_slice(), id) {
            Ok(at) => {
                let (_, x) = self.entries.remove(at);
                Some(x)
            }
            Err(_) => None,
        }
    }

    /// Gives away the entries from this place on. The memory for them is taken first.
    pub fn split_off(&mut self, at: usize) -> Result<Sorted<T>, AllocError>
        requires { at ≤ length self.old }
        ensures ok { OnOk result (self.new ≡ take at self.old) }
        ensures rest { IfOk result (λ rest. rest ≡ drop at self.old) }
        ensures err { OnErr result (self.new ≡ self.old) }
    {
        let entries = self.entries.split_off(at)?;
        Ok(Sorted { entries })
    }

    /// Takes the entries of another list, which are behind its own, where it has room for them, and answers whether it
    /// did. It takes no memory.
    pub fn append(&mut self, other: &mut Sorted<T>) -> bool
        requires { RiseAbove (top_id 0 self.old) other.old }
        ensures joined { result ≡ true → self.new ≡ self.old ++ other.old }
        ensures emptied { result ≡ true → other.new ≡ [] }
        ensures same { result ≡ false → self.new ≡ self.old }
        ensures rest { result ≡ false → other.new ≡ other.old }
    {
        if self.entries.capacity() - self.entries.len() < other.entries.len() {
            return false;
        }
        match self.entries.append(&mut other.entries) {
            Ok(()) => true,
            Err(_) => unreachable!(),
        }
    }
}

impl<T> Debug for Sorted<T> {
    fn fmt<W: Write>(&self, f: &mut Formatter<W>) -> Result<(), Error> {
        write!(f, "Sorted of {}", self.length())
    }
}
