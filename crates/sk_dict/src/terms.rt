//! The terms by number, one behind the other, with the first bytes of each beside them.
ghost use Rattle.std.specs.Prelude.{◌≡◌, ◌<◌, ◌≤◌, ◌++◌, ◌∷◌, [], length, take, slice_index, IfOk, OnOk, OnErr};
ghost use Rattle.sk_dict.specs.Terms.{term_at};
ghost use Rattle.sk_dict.specs.Searches.{stands_before};
ghost use Rattle.sk_dict.specs.Heads.{AreBytes, head_of};
ghost use Rattle.sk_dict.specs.Cuts.{start_at};

use crate::room::{make_room, make_room_for};
use std::alloc::{AllocError, Global};
use std::cmp::Ordering;
use std::marker::Model;

/// Terms in one piece of memory, each with its first eight bytes as a number, which most comparisons need alone.
/// Contracts see the list of the terms.
#[derive(Drop)]
pub(crate) struct Terms {
    bytes: Vec<u8>,
    ends: Vec<usize>,
    heads: Vec<u64>,
}

impl Model for Terms {
    ghost use Rattle.std.specs.Prelude.{List, ℕ};
    ghost use Rattle.sk_dict.specs.Cuts.{cut, IsPacked};

    ghost Value = { List (List ℕ) };

    ghost view = { λ t. cut 0 t.ends.items t.bytes.items };

    ghost invariant = { λ t. IsPacked t.bytes.items t.ends.items t.heads.items };
}

/// A byte, or 0 past the end.
fn byte_at(bytes: &[u8], i: usize) -> u8
    ensures { result ≡ slice_index bytes.now i }
{
    if i < bytes.len() { bytes[i] } else { 0 }
}

/// The first eight bytes as a number, the first the highest.
pub(crate) fn head_of(bytes: &[u8]) -> u64
    ensures value { result ≡ head_of bytes.now }
    ensures bytes { AreBytes bytes.now }
{
    let mut head = 0;
    'bytes: for i in 0..8 {
        let byte = byte_at(bytes, i);
        head = head * 256 + u64::from(byte);
    }
    head
}

/// Whether the term stands before the key, or at the key where what is wanted stands behind it.
fn is_before(term: &[u8], key: &[u8], behind: bool) -> bool
    ensures { result ≡ stands_before key.now behind term.now }
{
    match term.cmp(key) {
        Ordering::Less => true,
        Ordering::Equal => behind,
        Ordering::Greater => false,
    }
}

/// Where the term with this number begins; behind the last, where that one ends.
fn start(ends: &[usize], number: usize) -> usize
    requires { number ≤ length ends.now }
    ensures { result ≡ start_at 0 ends.now number }
{
    if number == 0 { 0 } else { ends[number - 1] }
}

impl Terms {
    /// No terms. It keeps the allocator, and takes no memory.
    pub fn new(alloc: Global) -> Terms
        ensures { result ≡ [] }
    {
        Terms {
            bytes: Vec::new(alloc),
            ends: Vec::new(alloc),
            heads: Vec::new(alloc),
        }
    }

    /// The same terms, in memory of their own.
    pub fn copy(&self) -> Result<Terms, AllocError>
        ensures { IfOk result (λ copy. copy ≡ self.now) }
    {
        let alloc = self.allocator();
        Ok(Terms {
            bytes: Vec::from_slice(alloc, self.bytes.as_slice())?,
            ends: Vec::from_slice(alloc, self.ends.as_slice())?,
            heads: Vec::from_slice(alloc, self.heads.as_slice())?,
        })
    }

    pub fn allocator(&self) -> Global {
        *self.bytes.allocator()
    }

    pub fn len(&self) -> usize
        ensures { result ≡ length self.now }
    {
        self.ends.len()
    }

    pub fn get(&self, number: usize) -> &[u8]
        requires { number < length self.now }
        ensures { result.now ≡ term_at self.now number }
    {
        &self.bytes[start(&self.ends, number)..self.ends[number]]
    }

    /// Whether the term with this number stands before the key, or at the key where what is wanted stands behind it.
    pub fn is_passed(&self, number: usize, key: &[u8], head: u64, behind: bool) -> bool
        requires there { number < length self.now }
        requires bytes { AreBytes key.now }
        requires head { head ≡ head_of key.now }
        ensures { result ≡ stands_before key.now behind (term_at self.now number) }
    {
        let own = self.heads[number];
        if own < head {
            return true;
        }
        if own > head {
            return false;
        }
        is_before(self.get(number), key, behind)
    }

    /// Puts the term last.
    pub fn push(&mut self, term: &[u8]) -> Result<(), AllocError>
        ensures ok { OnOk result (self.new ≡ self.old ++ term.now ∷ []) }
        ensures err { OnErr result (self.new ≡ self.old) }
    {
        make_room(&mut self.ends)?;
        make_room(&mut self.heads)?;
        make_room_for(&mut self.bytes, term.len())?;
        self.bytes.extend_from_slice(term)?;
        self.ends.push_reserved(self.bytes.len());
        self.heads.push_reserved(head_of(term));
        Ok(())
    }

    /// Keeps the first `count` terms. It takes no memory.
    pub fn truncate(&mut self, count: usize)
        ensures { self.new ≡ take count self.old }
    {
        self.ends.truncate(count);
        self.heads.truncate(count);
        let end = start(&self.ends, self.ends.len());
        self.bytes.truncate(end);
    }
}
