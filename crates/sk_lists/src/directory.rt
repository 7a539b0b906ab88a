//! Chunks in order, with what is known of all of them together.
ghost use Rattle.std.specs.Prelude.{◌≡◌, ◌≤◌, ◌<◌, ◌+◌, ◌⊎◌, ℕ, [], ◌∷◌, ◌++◌, length, take, drop, get_or, set, max, true, false, IfOk, IsOk, OnOk, OnErr};
ghost use Rattle.std.specs.List.{insert};
ghost use Rattle.std.specs.Vec.{vec_len, vec_capacity};
ghost use Rattle.sk_sorted.specs.Entries.{put, without, has, ids_of, top_id};
ghost use Rattle.sk_sorted.specs.Runs.{flat, AreRuns, FitsAt};
ghost use Rattle.sk_chunks.specs.Postings.{greatest_wdf};
ghost use Rattle.sk_lists.specs.Lists.{IsDirectory};

use crate::spare::Spare;
use sk_chunks::Chunk;
use std::alloc::{AllocError, Global};
use std::marker::Model;
use std::mem;

/// A chunk of a list has so many entries at most, fewer than one can hold: what a need passes over, it passes over by whole
/// chunks.
pub(crate) const FULL: u32 = 32;

const HALF: u32 = 16;
/// Neighbours that have no more entries together become one behind a removal or a halving, where the first has room for
/// all: it has room for as many as it ever had, and each but the last for 16 at least, so a list of n entries has about
/// n / 9 chunks at most. A copied chunk has room for the entries that it was copied with, so a copy may have more.
const THIN: u32 = 24;

/// Chunks in order of their ids, none of them empty.
#[derive(Drop)]
pub(crate) struct Directory {
    alloc: Global,
    chunks: Vec<Chunk>,
    spare: Spare,
    length: u32,
    greatest: u32,
}

impl Model for Directory {
    ghost use Rattle.sk_lists.specs.Lists.{Runs, IsDirectory};

    ghost Value = { Runs };

    ghost view = { λ d. d.chunks.items };

    ghost invariant = { λ d. IsDirectory d.chunks.items d.length d.greatest };
}

impl Directory {
    /// The directory of one chunk, which is taken out of its place.
    pub fn of(alloc: Global, chunk: &mut Chunk) -> Result<Directory, AllocError>
        requires { 0 < length chunk.old }
        ensures ok { IfOk result (λ d. d ≡ chunk.old ∷ []) }
        ensures err { OnErr result (chunk.new ≡ chunk.old) }
    {
        let mut chunks = Vec::with_capacity(alloc, 2)?;
        let length = chunk.count();
        let greatest = chunk.greatest();
        chunks.push_reserved(mem::replace(chunk, Chunk::new(alloc)));
        Ok(Directory {
            alloc,
            chunks,
            spare: Spare::new(alloc),
            length,
            greatest,
        })
    }

    /// The same chunks, in memory of their own.
    pub fn copy(&self) -> Result<Directory, AllocError>
        ensures { IfOk result (λ copy. copy ≡ self.now) }
    {
        let chunks = copies_of(self.alloc, self.chunks.as_slice())?;
        Ok(Directory {
            alloc: self.alloc,
            chunks,
            spare: Spare::new(self.alloc),
            length: self.length,
            greatest: self.greatest,
        })
    }

    /// The chunks.
    pub fn chunks(&self) -> &[Chunk]
        ensures value { result.now ≡ self.now }
        ensures sound { AreRuns self.now }
    {
        self.chunks.as_slice()
    }

    /// How many entries there are.
    pub fn length(&self) -> u32
        ensures value { result ≡ length (flat self.now) }
        ensures sound { AreRuns self.now }
    {
        self.length
    }

    /// The greatest wdf, 0 where there is no entry.
    pub fn greatest(&self) -> u32
        ensures { result ≡ greatest_wdf (flat self.now) }
    {
        self.greatest
    }

    /// Gives the document this wdf. An entry behind the last one goes into a new chunk where the last one is full, and
    /// one in the middle of a full chunk halves that; a half is joined with a thin neighbour.
    pub fn insert(&mut self, id: u32, wdf: u32) -> Result<(), AllocError>
        requires { 1 ≤ id }
        ensures ok { OnOk result (flat self.new ≡ put id wdf (flat self.old)) }
        ensures err { OnErr result (self.new ≡ self.old) }
        ensures succeeds { has id (flat self.old) ≡ true → IsOk result }
    {
        let at = self.place(id);
        if at == self.chunks.len() {
            return self.append(id, wdf);
        }
        if self.chunks[at].count() < FULL || self.has_in(at, id) {
            return self.put_in(at, id, wdf);
        }
        self.put_in_half(at, id, wdf)?;
        self.join(at + 1);
        self.join(at.saturating_sub(1));
        Ok(())
    }

    /// Takes the document's entry out, and answers whether there was one.
    pub fn remove(&mut self, id: u32) -> bool
        ensures after { flat self.new ≡ without id (flat self.old) }
        ensures there { result ≡ has id (flat self.old) }
    {
        let at = self.place(id);
        if at == self.chunks.len() {
            return false;
        }
        if !self.take_out(at, id) {
            return false;
        }
        self.join(at);
        self.join(at.saturating_sub(1));
        true
    }

    /// The ids of all entries, behind these, which are given up where memory runs out.
    pub fn put_ids(&mut self, ids: Vec<u32>) -> Result<Vec<u32>, AllocError>
        ensures ids { IfOk result (λ all. all.items ≡ ids.items ++ ids_of (flat self.old)) }
        ensures same { self.new ≡ self.old }
    {
        let mut ids = ids;
        'chunks: for at in 0..self.chunks.len() {
            ids = self.put_ids_of(at, ids)?;
        }
        Ok(ids)
    }

    fn put_ids_of(&mut self, at: usize, ids: Vec<u32>) -> Result<Vec<u32>, AllocError>
        requires { at < length self.old }
        ensures ids { IfOk result (λ all. all.items ≡ ids.items ++ ids_of (get_or self.old at [])) }
        ensures same { self.new ≡ self.old }
    {
        self.chunks[at].put_ids(ids)
    }

    /// The first chunk that ends at the id or behind it; their number where there is none.
    fn place(&self, id: u32) -> usize
        ensures bound { result ≤ length self.now }
        ensures before { (k : ℕ) → k < result → top_id 0 (get_or self.now k []) < id }
        ensures at { result < length self.now → id ≤ top_id 0 (get_or self.now result []) }
        ensures sound { AreRuns self.now }
    {
        // A document that is added has the highest id.
        if self.is_behind(id) {
            return self.chunks.len();
        }
        self.chunks
            .as_slice()
            .partition_point(|chunk| chunk.last() < id)
    }

    /// Whether the id is behind all chunks.
    fn is_behind(&self, id: u32) -> bool
        ensures { result ≡ true → (k : ℕ) → k < length self.now → top_id 0 (get_or self.now k []) < id }
    {
        let count = self.chunks.len();
        count == 0 || self.chunks[count - 1].last() < id
    }

    /// An entry behind all others: into the last chunk, or a new one where that is full or there is none.
    fn append(&mut self, id: u32, wdf: u32) -> Result<(), AllocError>
        requires id { 1 ≤ id }
        requires behind { (k : ℕ) → k < length self.old → top_id 0 (get_or self.old k []) < id }
        ensures ok { OnOk result (flat self.new ≡ put id wdf (flat self.old)) }
        ensures err { OnErr result (self.new ≡ self.old) }
        ensures new { has id (flat self.old) ≡ false }
    {
        let count = self.chunks.len();
        if count > 0 && self.chunks[count - 1].count() < FULL {
            return self.put_in(count - 1, id, wdf);
        }
        let chunk = self.spare.begin(count, id, wdf)?;
        self.chunks.push(chunk)?;
        self.length += 1;
        self.greatest = self.greatest.max(wdf);
        Ok(())
    }

    fn has_in(&mut self, at: usize, id: u32) -> bool
        requires { at < length self.old }
        ensures value { result ≡ has id (get_or self.old at []) }
        ensures same { self.new ≡ self.old }
    {
        self.chunks[at].has(id)
    }

    /// Puts a new entry into the chunk at the place, and makes two chunks of that.
    fn put_in_half(&mut self, at: usize, id: u32, wdf: u32) -> Result<(), AllocError>
        requires id { 1 ≤ id }
        requires there { at < length self.old }
        requires fits { FitsAt id self.old at }
        requires full { 32 ≤ length (get_or self.old at []) }
        requires new { has id (get_or self.old at []) ≡ false }
        ensures ok { OnOk result (flat self.new ≡ put id wdf (flat self.old)) }
        ensures err { OnErr result (self.new ≡ self.old) }
    {
        self.chunks.reserve(1)?;
        let rest = self.chunks[at].insert_and_split(id, wdf, HALF)?;
        insert_reserved(&mut self.chunks, at + 1, rest);
        self.length += 1;
        self.greatest = self.greatest.max(wdf);
        Ok(())
    }

    /// Puts the entry into the chunk at the place.
    fn put_in(&mut self, at: usize, id: u32, wdf: u32) -> Result<(), AllocError>
        requires id { 1 ≤ id }
        requires there { at < length self.old }
        requires fits { FitsAt id self.old at }
        requires room { (has id (get_or self.old at []) ≡ true) ⊎ (length (get_or self.old at []) < 128) }
        ensures ok { OnOk result (flat self.new ≡ put id wdf (flat self.old)) }
        ensures err { OnErr result (self.new ≡ self.old) }
        ensures succeeds { has id (flat self.old) ≡ true → IsOk result }
    {
        let count = self.chunks[at].count();
        let most = self.chunks[at].greatest();
        self.chunks[at].insert(id, wdf)?;
        self.length += self.chunks[at].count() - count;
        self.greatest = greatest_behind(self.chunks.as_slice(), at, most, self.greatest);
        Ok(())
    }

    /// Takes the entry out of the chunk at the place, which goes where it was the only one.
    fn take_out(&mut self, at: usize, id: u32) -> bool
        requires there { at < length self.old }
        requires fits { FitsAt id self.old at }
        ensures after { flat self.new ≡ without id (flat self.old) }
        ensures there { result ≡ has id (flat self.old) }
    {
        let most = self.chunks[at].greatest();
        if !self.chunks[at].remove(id) {
            return false;
        }
        self.length -= 1;
        self.greatest = greatest_behind(self.chunks.as_slice(), at, most, self.greatest);
        if self.chunks[at].count() == 0 {
            self.chunks.remove(at);
        }
        true
    }

    /// Makes one chunk of the one at the place and the next, where they have few entries and the first has room for all.
    /// It takes no memory.
    fn join(&mut self, at: usize)
        ensures { flat self.new ≡ flat self.old }
    {
        if self.chunks.len().saturating_sub(at) < 2 {
            return;
        }
        if self.chunks[at].count() + self.chunks[at + 1].count() > THIN {
            return;
        }
        let mut next = self.chunks.remove(at + 1);
        if !self.chunks[at].join(&mut next) {
            insert_reserved(&mut self.chunks, at + 1, next);
        }
    }
}

fn insert_reserved(chunks: &mut Vec<Chunk>, at: usize, chunk: Chunk)
    requires room { vec_len chunks.old < vec_capacity chunks.old }
    requires place { at ≤ vec_len chunks.old }
    ensures { chunks.new.items ≡ insert chunks.old.items at chunk }
{
    match chunks.insert(at, chunk) {
        Ok(()) => {}
        Err(_) => unreachable!(),
    }
}

/// The greatest wdf of all chunks, where that of the one at the place was `most`, and that of all was `greatest`.
fn greatest_behind(chunks: &[Chunk], at: usize, most: u32, greatest: u32) -> u32
    requires there { at < length chunks.now }
    requires was { (o : ℕ) × ((greatest ≡ max o most) × (greatest_wdf (flat chunks.now) ≡ max o (greatest_wdf (get_or chunks.now at [])))) }
    ensures { result ≡ greatest_wdf (flat chunks.now) }
{
    let now = chunks[at].greatest();
    if most <= now {
        return greatest.max(now);
    }
    if most < greatest {
        return greatest;
    }
    greatest_of(chunks, greatest)
}

/// The greatest wdf, by a look at the chunks that stops at the first that has the most that one can have.
fn greatest_of(chunks: &[Chunk], bound: u32) -> u32
    requires { greatest_wdf (flat chunks.now) ≤ bound }
    ensures { result ≡ greatest_wdf (flat chunks.now) }
{
    let mut most = 0u32;
    'chunks: for chunk in chunks {
        most = most.max(chunk.greatest());
        if most == bound {
            return most;
        }
    }
    most
}

/// The same chunks, in memory of their own.
fn copies_of(alloc: Global, chunks: &[Chunk]) -> Result<Vec<Chunk>, AllocError>
    ensures { IfOk result (λ copies. copies.items ≡ chunks.now) }
{
    let mut copies = Vec::with_capacity(alloc, chunks.len())?;
    'chunks: for chunk in chunks {
        let copy = chunk.copy(alloc)?;
        copies.push(copy)?;
    }
    Ok(copies)
}
