//! A list of entries in order of their ids, in pieces.
ghost use Rattle.std.specs.Prelude.{◌≡◌, ◌+◌, ◌-◌, ◌≤◌, ◌<◌, ◌⊎◌, ℕ, [], length, take, drop, get_or, set, true, false, IfOk, IsOk, OnOk, OnErr};
ghost use Rattle.std.specs.List.{insert};
ghost use Rattle.std.specs.Option.{option_map};
ghost use Rattle.std.specs.Vec.{vec_len, vec_capacity};
ghost use Rattle.sk_sorted.specs.Entries.{AreSorted, put, without, found, has, top_id};
ghost use Rattle.sk_sorted.specs.Runs.{flat, AreRuns, FitsAt};

use crate::{Copier, Piece};
use std::alloc::{AllocError, Global};
use std::fmt::{Debug, Error, Formatter, Write};
use std::marker::Model;

/// A piece has so many entries at most.
const FULL: u32 = 128;
/// Neighbours that have no more entries together become one behind a removal or a halving, where the first has room for
/// all: it has room for as many as it ever had, and each but the last for 64 at least, so a list of n entries has about
/// n / 33 pieces at most. A copied piece may have room for the entries alone that it was copied with, so a copy may have
/// more.
const THIN: u32 = 96;

/// Entries, each an id from 1 and what stands with it, no id twice, in order of their ids, cut into pieces of at most
/// 128. `Debug` tells how many there are, and shows none.
#[derive(Drop)]
pub struct Pieces<T> {
    alloc: Global,
    pieces: Vec<Piece<T>>,
    length: u32,
}

impl<T> Model for Pieces<T> {
    ghost use Rattle.std.specs.Prelude.{List, ℕ};
    ghost use Rattle.std.specs.Coded.{coded_list, coded×, coded_ℕ};
    ghost use Rattle.sk_pieces.specs.Pieces.{ArePieces};

    ghost Value = { List (List (ℕ × T)) };

    ghost coded = { coded_list (coded_list (coded× coded_ℕ T.code)) };

    ghost view = { λ l. l.pieces.items };

    ghost invariant = { λ l. ArePieces l.pieces.items l.length };
}

impl<T> Pieces<T> {
    /// No entry. It takes no memory.
    pub fn new(alloc: Global) -> Pieces<T>
        ensures { result ≡ [] }
    {
        Pieces {
            alloc,
            pieces: Vec::new(alloc),
            length: 0,
        }
    }

    /// How many entries there are. It is kept, and not counted.
    pub fn length(&self) -> u32
        ensures value { result ≡ length (flat self.now) }
        ensures sound { AreRuns self.now }
        ensures sorted { AreSorted (flat self.now) }
    {
        self.length
    }

    /// The pieces. None is empty.
    pub fn pieces(&self) -> &[Piece<T>]
        ensures value { result.now ≡ self.now }
        ensures sound { AreRuns self.now }
    {
        self.pieces.as_slice()
    }

    /// What stands with the id.
    pub fn get(&self, id: u32) -> Option<&T>
        ensures { option_map (λ x. x.now) result ≡ found id (flat self.now) }
    {
        let at = self.place(id);
        if at == self.pieces.len() {
            return None;
        }
        self.pieces[at].get(id)
    }

    /// The first piece that ends at the id or behind it; their number where there is none. New entries that came in
    /// order, with no gap between their ids, fill the pieces from the first on, so it looks at that place first.
    fn place(&self, id: u32) -> usize
        ensures bound { result ≤ length self.now }
        ensures before { (k : ℕ) → k < result → top_id 0 (get_or self.now k []) < id }
        ensures at { result < length self.now → id ≤ top_id 0 (get_or self.now result []) }
        ensures sound { AreRuns self.now }
    {
        let pieces = self.pieces.as_slice();
        let guess = (id.saturating_sub(1) / FULL) as usize;
        if is_place(pieces, guess, id) {
            return guess;
        }
        pieces.partition_point(|piece| piece.last() < id)
    }
}

/// Whether the piece ends at the id or behind it, and the one before it does not.
fn is_place<T>(pieces: &[Piece<T>], at: usize, id: u32) -> bool
    ensures within { result ≡ true → at < length pieces.now }
    ensures before { result ≡ true → 0 < at → top_id 0 (get_or pieces.now (at - 1) []) < id }
    ensures at { result ≡ true → id ≤ top_id 0 (get_or pieces.now at []) }
{
    at < pieces.len() && id <= pieces[at].last() && (at == 0 || pieces[at - 1].last() < id)
}

impl<T: Drop> Pieces<T> {
    /// The same entries in the same pieces, in memory of their own.
    pub fn copy<C: Copier<T>>(&self, copier: &C) -> Result<Pieces<T>, AllocError>
        ensures { IfOk result (λ copy. copy ≡ self.now) }
    {
        let pieces = copies_of(self.alloc, self.pieces.as_slice(), copier)?;
        Ok(Pieces {
            alloc: self.alloc,
            pieces,
            length: self.length,
        })
    }

    /// Puts this with the id. Only a new entry takes memory, and only entries of a few pieces move.
    pub fn put(&mut self, id: u32, x: T) -> Result<(), AllocError>
        requires { 1 ≤ id }
        ensures ok { OnOk result (flat self.new ≡ put id x (flat self.old)) }
        ensures err { OnErr result (self.new ≡ self.old) }
        ensures succeeds { has id (flat self.old) ≡ true → IsOk result }
    {
        let at = self.place(id);
        if at == self.pieces.len() {
            return self.append(id, x);
        }
        if self.pieces[at].count() < FULL || self.pieces[at].has(id) {
            return self.put_in(at, id, x);
        }
        self.put_in_half(at, id, x)?;
        self.join(at + 1);
        self.join(at.saturating_sub(1));
        Ok(())
    }

    /// Takes the id's entry out, and answers what stood with it. It takes no memory.
    pub fn take(&mut self, id: u32) -> Option<T>
        ensures after { flat self.new ≡ without id (flat self.old) }
        ensures gone { result ≡ found id (flat self.old) }
    {
        let at = self.place(id);
        if at == self.pieces.len() {
            return None;
        }
        let x = self.take_out(at, id)?;
        self.join(at);
        self.join(at.saturating_sub(1));
        Some(x)
    }

    /// An entry behind all others: into the last piece, or a new one where that is full or there is none.
    fn append(&mut self, id: u32, x: T) -> Result<(), AllocError>
        requires id { 1 ≤ id }
        requires behind { (k : ℕ) → k < length self.old → top_id 0 (get_or self.old k []) < id }
        ensures ok { OnOk result (flat self.new ≡ put id x (flat self.old)) }
        ensures err { OnErr result (self.new ≡ self.old) }
        ensures new { has id (flat self.old) ≡ false }
    {
        let count = self.pieces.len();
        if count > 0 && self.pieces[count - 1].count() < FULL {
            return self.put_in(count - 1, id, x);
        }
        self.pieces.reserve(1)?;
        let piece = Piece::one(self.alloc, id, x)?;
        self.pieces.push_reserved(piece);
        self.length += 1;
        Ok(())
    }

    /// Puts a new entry into the full piece at the place, and makes two pieces of that.
    fn put_in_half(&mut self, at: usize, id: u32, x: T) -> Result<(), AllocError>
        requires id { 1 ≤ id }
        requires there { at < length self.old }
        requires fits { FitsAt id self.old at }
        requires full { length (get_or self.old at []) ≡ 128 }
        requires new { has id (get_or self.old at []) ≡ false }
        ensures ok { OnOk result (flat self.new ≡ put id x (flat self.old)) }
        ensures err { OnErr result (self.new ≡ self.old) }
    {
        self.pieces.reserve(1)?;
        let rest = self.pieces[at].put_and_halve(id, x)?;
        insert_reserved(&mut self.pieces, at + 1, rest);
        self.length += 1;
        Ok(())
    }

    /// Puts the entry into the piece at the place.
    fn put_in(&mut self, at: usize, id: u32, x: T) -> Result<(), AllocError>
        requires id { 1 ≤ id }
        requires there { at < length self.old }
        requires fits { FitsAt id self.old at }
        requires room { (has id (get_or self.old at []) ≡ true) ⊎ (length (get_or self.old at []) < 128) }
        ensures ok { OnOk result (flat self.new ≡ put id x (flat self.old)) }
        ensures err { OnErr result (self.new ≡ self.old) }
        ensures succeeds { has id (flat self.old) ≡ true → IsOk result }
    {
        let count = self.pieces[at].count();
        self.pieces[at].put(id, x)?;
        self.length += self.pieces[at].count() - count;
        Ok(())
    }

    /// Takes the id's entry out of the piece at the place, which goes where it was the only one.
    fn take_out(&mut self, at: usize, id: u32) -> Option<T>
        requires there { at < length self.old }
        requires fits { FitsAt id self.old at }
        ensures after { flat self.new ≡ without id (flat self.old) }
        ensures gone { result ≡ found id (flat self.old) }
    {
        let x = self.pieces[at].remove(id)?;
        self.length -= 1;
        if self.pieces[at].count() == 0 {
            self.pieces.remove(at);
        }
        Some(x)
    }

    /// Makes one piece of the one at the place and the next, where they have few entries and the first has room for all.
    /// It takes no memory.
    fn join(&mut self, at: usize)
        ensures { flat self.new ≡ flat self.old }
    {
        if self.pieces.len().saturating_sub(at) < 2 {
            return;
        }
        if self.pieces[at].count() + self.pieces[at + 1].count() > THIN {
            return;
        }
        let mut next = self.pieces.remove(at + 1);
        if !self.pieces[at].join(&mut next) {
            insert_reserved(&mut self.pieces, at + 1, next);
        }
    }
}

fn insert_reserved<T: Drop>(pieces: &mut Vec<Piece<T>>, at: usize, piece: Piece<T>)
    requires room { vec_len pieces.old < vec_capacity pieces.old }
    requires place { at ≤ vec_len pieces.old }
    ensures { pieces.new.items ≡ insert pieces.old.items at piece }
{
    match pieces.insert(at, piece) {
        Ok(()) => {}
        Err(_) => unreachable!(),
    }
}

impl<T> Debug for Pieces<T> {
    fn fmt<W: Write>(&self, f: &mut Formatter<W>) -> Result<(), Error> {
        write!(f, "Pieces of {}", self.length())
    }
}

/// The same pieces, in memory of their own.
fn copies_of<T: Drop, C: Copier<T>>(
    alloc: Global,
    pieces: &[Piece<T>],
    copier: &C,
) -> Result<Vec<Piece<T>>, AllocError>
    ensures { IfOk result (λ copies. copies.items ≡ pieces.now) }
{
    let mut copies = Vec::with_capacity(alloc, pieces.len())?;
    'pieces: for piece in pieces {
        let copy = piece.copy(alloc, copier)?;
        copies.push(copy)?;
    }
    Ok(copies)
}
