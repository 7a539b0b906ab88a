//! A chunk of a posting list: few entries in order of their ids, with the last id and the greatest wdf kept.
ghost use Rattle.std.specs.Prelude.{◌≡◌, ◌≤◌, ◌<◌, ◌+◌, ◌⊎◌, [], ◌∷◌, ◌++◌, length, take, drop, true, false, unwrap_or, slice_index_or, IfOk, IsOk, OnOk, OnErr};
ghost use Rattle.sk_sorted.specs.Entries.{AreSorted, RiseAbove, put, without, has, first_id, top_id, ids_of};
ghost use Rattle.sk_chunks.specs.Postings.{greatest_wdf};

use crate::entry::Entry;
use crate::place::{greatest_of, greatest_without, last_of, place_of};
use sk_sorted::Ends;
use sk_steps::Steps;
use std::alloc::{AllocError, Global};
use std::fmt::{Debug, Error, Formatter, Write};
use std::marker::Model;
use std::mem;
use std::sync::ledger::Ledger;

/// What is known of a chunk with no entry read.
#[derive(Clone, Copy, Debug, PartialEq)]
pub struct ChunkHead {
    pub first: u32,
    pub last: u32,
    pub count: u32,
    pub greatest: u32,
}

/// At most 128 entries of one term, each of eight bytes. On a chunk that is only lent, only `entry` shows one, and it
/// is counted. `Debug` tells how many there are, and shows none.
#[derive(Drop)]
pub struct Chunk {
    entries: Vec<Entry>,
    last: u32,
    greatest: u32,
}

impl Model for Chunk {
    ghost use Rattle.sk_chunks.specs.Postings.{Postings};
    ghost use Rattle.sk_chunks.specs.Chunks.{IsChunk};

    ghost Value = { Postings };

    ghost view = { λ c. c.entries.items };

    ghost invariant = { λ c. IsChunk c.entries.items c.last c.greatest };
}

impl Chunk {
    /// No entry. It takes no memory.
    pub fn new(alloc: Global) -> Chunk
        ensures { result ≡ [] }
    {
        Chunk {
            entries: Vec::new(alloc),
            last: 0,
            greatest: 0,
        }
    }

    /// The same entries, in memory of their own, of just their room. It is no reading: it shows none of them.
    pub fn copy(&self, alloc: Global) -> Result<Chunk, AllocError>
        ensures { IfOk result (λ copy. copy ≡ self.now) }
    {
        let entries = copies_of(alloc, self.entries.as_slice())?;
        Ok(Chunk {
            entries,
            last: self.last,
            greatest: self.greatest,
        })
    }

    /// One entry. It takes room for that one alone.
    pub fn one(alloc: Global, id: u32, wdf: u32) -> Result<Chunk, AllocError>
        requires { 1 ≤ id }
        ensures { IfOk result (λ c. c ≡ (id, wdf) ∷ []) }
    {
        let mut entries = Vec::with_capacity(alloc, 1)?;
        entries.push(Entry::new(id, wdf))?;
        Ok(Chunk {
            entries,
            last: id,
            greatest: wdf,
        })
    }

    /// No entry, and room for so many.
    pub fn with_room(alloc: Global, room: u32) -> Result<Chunk, AllocError>
        ensures { IfOk result (λ c. c ≡ []) }
    {
        let entries = Vec::with_capacity(alloc, room as usize)?;
        Ok(Chunk {
            entries,
            last: 0,
            greatest: 0,
        })
    }

    /// Makes this entry the only one. Where there is room for one it takes no memory, and all room stays.
    pub fn begin(&mut self, id: u32, wdf: u32) -> Result<(), AllocError>
        requires { 1 ≤ id }
        ensures ok { OnOk result (self.new ≡ (id, wdf) ∷ []) }
        ensures err { OnErr result (self.new ≡ []) }
    {
        self.entries.clear();
        self.last = 0;
        self.greatest = 0;
        self.entries.push(Entry::new(id, wdf))?;
        self.last = id;
        self.greatest = wdf;
        Ok(())
    }

    /// The first and the last id, how many entries there are, and the greatest wdf; 0 where there is none. It looks at the
    /// first entry's id, which is not counted.
    pub fn head(&self) -> ChunkHead
        ensures first { result.first ≡ unwrap_or (first_id self.now) 0 }
        ensures last { result.last ≡ top_id 0 self.now }
        ensures count { result.count ≡ length self.now }
        ensures greatest { result.greatest ≡ greatest_wdf self.now }
    {
        let first = match self.entries.first() {
            Some(entry) => entry.id(),
            None => 0,
        };
        ChunkHead {
            first,
            last: self.last,
            count: self.count(),
            greatest: self.greatest,
        }
    }

    /// How many entries there are.
    pub fn count(&self) -> u32
        ensures value { result ≡ length self.now }
        ensures few { length self.now ≤ 128 }
        ensures sound { AreSorted self.now }
    {
        self.entries.len() as u32
    }

    /// The last id, 0 where there is none. It is kept, so nothing is read.
    pub fn last(&self) -> u32
        ensures { result ≡ top_id 0 self.now }
    {
        self.last
    }

    /// The greatest wdf of an entry, 0 where there is none. It is kept, so nothing is read.
    pub fn greatest(&self) -> u32
        ensures { result ≡ greatest_wdf self.now }
    {
        self.greatest
    }

    /// The one reading: of the entry at the place, which is counted.
    pub fn entry<L: Ledger>(&self, i: u32, steps: &mut Steps<L>) -> (u32, u32)
        requires { i < length self.now }
        ensures value { result ≡ slice_index_or self.now i result }
        ensures cost { steps.new ≡ steps.old + 1 }
    {
        let entry = &self.entries[i as usize];
        steps.tick();
        (entry.id(), entry.wdf())
    }

    /// Whether the document has an entry, for one who changes the list. It is no reading: a shared reference does not
    /// show it.
    pub fn has(&mut self, id: u32) -> bool
        ensures value { result ≡ has id self.old }
        ensures same { self.new ≡ self.old }
    {
        place_of(self.entries.as_slice(), self.last, id).is_ok()
    }

    /// Gives the document this wdf, in constant time where its id is above all others. Only a new entry takes memory.
    pub fn insert(&mut self, id: u32, wdf: u32) -> Result<(), AllocError>
        requires id { 1 ≤ id }
        requires room { (has id self.old ≡ true) ⊎ (length self.old < 128) }
        ensures ok { OnOk result (self.new ≡ put id wdf self.old) }
        ensures err { OnErr result (self.new ≡ self.old) }
        ensures succeeds { has id self.old ≡ true → IsOk result }
    {
        let most = self.greatest.max(wdf);
        match place_of(self.entries.as_slice(), self.last, id) {
            Ok(at) => {
                let gone = mem::replace(&mut self.entries[at], Entry::new(id, wdf));
                self.greatest = greatest_without(self.entries.as_slice(), most, gone.wdf());
                Ok(())
            }
            Err(at) => {
                self.entries.insert(at, Entry::new(id, wdf))?;
                self.last = self.last.max(id);
                self.greatest = most;
                Ok(())
            }
        }
    }

    /// Takes the document's entry out, and answers whether there was one. It takes no memory.
    pub fn remove(&mut self, id: u32) -> bool
        ensures after { self.new ≡ without id self.old }
        ensures there { result ≡ has id self.old }
    {
        match place_of(self.entries.as_slice(), self.last, id) {
            Ok(at) => {
                let gone = self.entries.remove(at);
                self.greatest = greatest_without(
                    self.entries.as_slice(),
                    self.greatest,
                    gone.wdf(),
                );
                self.last = last_of(self.entries.as_slice());
                true
            }
            Err(_) => false,
        }
    }

    /// Gives away what stands behind the first `at` entries. The memory for that is taken first.
    pub fn split_off(&mut self, at: u32) -> Result<Chunk, AllocError>
        requires { at ≤ length self.old }
        ensures ok { OnOk result (self.new ≡ take at self.old) }
        ensures rest { IfOk result (λ rest. rest ≡ drop at self.old) }
        ensures err { OnErr result (self.new ≡ self.old) }
    {
        let entries = self.entries.split_off(at as usize)?;
        let rest = Chunk {
            last: last_of(entries.as_slice()),
            greatest: greatest_of(entries.as_slice(), self.greatest),
            entries,
        };
        self.last = last_of(self.entries.as_slice());
        self.greatest = greatest_of(self.entries.as_slice(), self.greatest);
        Ok(rest)
    }

    /// Gives the document, which has no entry, this wdf, and gives away what then stands behind the first `at` entries.
    pub fn insert_and_split(&mut self, id: u32, wdf: u32, at: u32) -> Result<Chunk, AllocError>
        requires id { 1 ≤ id }
        requires new { has id self.old ≡ false }
        requires at { (1 ≤ at) × (at ≤ length self.old) }
        ensures ok { OnOk result (self.new ≡ take at (put id wdf self.old)) }
        ensures rest { IfOk result (λ rest. rest ≡ drop at (put id wdf self.old)) }
        ensures err { OnErr result (self.new ≡ self.old) }
    {
        let place = match place_of(self.entries.as_slice(), self.last, id) {
            Ok(_) => unreachable!(),
            Err(place) => place,
        };
        let most = self.greatest.max(wdf);
        self.entries.insert(place, Entry::new(id, wdf))?;
        let entries = match self.entries.split_off(at as usize) {
            Ok(entries) => entries,
            Err(error) => {
                self.entries.remove(place);
                return Err(error);
            }
        };
        let rest = Chunk {
            last: last_of(entries.as_slice()),
            greatest: greatest_of(entries.as_slice(), most),
            entries,
        };
        self.last = last_of(self.entries.as_slice());
        self.greatest = greatest_of(self.entries.as_slice(), most);
        Ok(rest)
    }

    /// Takes the entries of the next chunk, which are behind its own, where it has room for them, and answers whether it
    /// did. It takes no memory.
    pub fn join(&mut self, next: &mut Chunk) -> bool
        requires rise { RiseAbove (top_id 0 self.old) next.old }
        requires few { length self.old + length next.old ≤ 128 }
        ensures joined { result ≡ true → self.new ≡ self.old ++ next.old }
        ensures emptied { result ≡ true → next.new ≡ [] }
        ensures same { result ≡ false → self.new ≡ self.old }
        ensures rest { result ≡ false → next.new ≡ next.old }
    {
        if self.entries.capacity() - self.entries.len() < next.entries.len() {
            return false;
        }
        match self.entries.append(&mut next.entries) {
            Ok(()) => {}
            Err(_) => unreachable!(),
        }
        self.last = self.last.max(next.last);
        self.greatest = self.greatest.max(next.greatest);
        next.last = 0;
        next.greatest = 0;
        true
    }

    /// Puts the ids of all entries behind those, for one who changes the list. It is no reading: a shared reference
    /// does not show them. Where memory runs out the ids are given up.
    pub fn put_ids(&mut self, ids: Vec<u32>) -> Result<Vec<u32>, AllocError>
        ensures ids { IfOk result (λ all. all.items ≡ ids.items ++ ids_of self.old) }
        ensures same { self.new ≡ self.old }
    {
        let mut ids = ids;
        'entries: for entry in self.entries.as_slice() {
            ids.push(entry.id())?;
        }
        Ok(ids)
    }
}

impl Ends for Chunk {
    ghost end = { top_id 0 };

    fn end(&self) -> u32 {
        self.last()
    }
}

impl Debug for Chunk {
    fn fmt<W: Write>(&self, f: &mut Formatter<W>) -> Result<(), Error> {
        write!(f, "Chunk of {}", self.count())
    }
}

/// The same entries, in a vector of just their room.
fn copies_of(alloc: Global, entries: &[Entry]) -> Result<Vec<Entry>, AllocError>
    ensures { IfOk result (λ copies. copies.items ≡ entries.now) }
{
    let mut copies = Vec::with_capacity(alloc, entries.len())?;
    'entries: for entry in entries {
        copies.push(entry.copy())?;
    }
    Ok(copies)
}
