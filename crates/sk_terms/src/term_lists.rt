//! The posting lists of all terms.
ghost use Rattle.std.specs.Prelude.{◌≡◌, ◌≤◌, ◌<◌, ◌+◌, [], length, min, slice_index_or, Some, None, true, IfOk, OnOk, IfSome, MatchOption};
ghost use Rattle.sk_base.specs.Documents.{AreTerms};
ghost use Rattle.sk_dict.specs.Terms.{term_at, number_of, begins_with, IsNext, HasNoNext, IsWalk};
ghost use Rattle.sk_sorted.specs.Entries.{put, without, ids_of};
ghost use Rattle.sk_sorted.specs.Runs.{flat};
ghost use Rattle.sk_packed.specs.Packed.{AreKnown};
ghost use Rattle.sk_terms.specs.Listed.{list_of, IsListed, IsEdited, SameLists, Puts, TakesOut, PutsAll, TakesOutAll};
ghost use Rattle.sk_terms.specs.Named.{named_all, Grows};
ghost use Rattle.sk_terms.specs.Wild.{figure_of, sum_behind};

use sk_base::{DocId, DocTerm};
use sk_dict::{Dict, Place, make_room};
use sk_lists::List;
use sk_packed::{PackedTerms, Packing};
use std::alloc::{AllocError, Global};
use std::marker::Model;

/// Terms, and for each the documents that have it. A term that was given a number keeps it; its list may become empty.
#[derive(Drop)]
pub struct TermLists {
    alloc: Global,
    dict: Dict,
    lists: Vec<List>,
}

/// A number of a list that is known without a reading.
#[derive(Clone, Copy)]
pub enum Figure {
    Length,
    Greatest,
}

impl Model for TermLists {
    ghost use Rattle.sk_terms.specs.Listed.{Listed, IsListed};

    ghost Value = { Listed };

    ghost view = { λ l. record { terms = l.dict; lists = l.lists.items } };

    ghost invariant = { λ l. IsListed (record { terms = l.dict; lists = l.lists.items }) };
}

impl TermLists {
    /// No term. It takes no memory.
    pub fn new(alloc: Global) -> TermLists
        ensures { result ≡ record { terms = []; lists = [] } }
    {
        TermLists {
            alloc,
            dict: Dict::new(alloc),
            lists: Vec::new(alloc),
        }
    }

    /// The same terms with the same lists, in memory of their own.
    pub fn copy(&self) -> Result<TermLists, AllocError>
        ensures { IfOk result (λ copy. copy ≡ self.now) }
    {
        let dict = self.dict.copy()?;
        let lists = copies_of(self.alloc, self.lists.as_slice())?;
        Ok(TermLists {
            alloc: self.alloc,
            dict,
            lists,
        })
    }

    /// The number of the term.
    pub fn find(&self, term: &[u8]) -> Option<usize>
        ensures value { result ≡ number_of term.now self.now.terms }
        ensures found { MatchOption result (list_of term.now self.now ≡ []) (λ n. (n < length self.now.terms) × (term_at self.now.terms n ≡ term.now)) }
    {
        self.dict.find(term)
    }

    /// The term with this number, which no other number has.
    pub fn term(&self, number: usize) -> &[u8]
        requires there { number < length self.now.terms }
        ensures value { result.now ≡ term_at self.now.terms number }
        ensures sound { IsListed self.now }
    {
        self.dict.term(number)
    }

    /// The numbers of all terms that begin with the prefix, in order.
    pub fn with_prefix(&self, prefix: &[u8]) -> Result<Vec<usize>, AllocError>
        ensures walk { IfOk result (λ ns. IsWalk self.now.terms prefix.now None ns.items) }
        ensures sound { IsListed self.now }
    {
        self.dict.with_prefix(prefix)
    }

    /// The list with this number.
    pub fn list(&self, number: usize) -> &List
        requires there { number < length self.now.terms }
        ensures runs { result.now ≡ slice_index_or self.now.lists number [] }
        ensures entries { flat result.now ≡ list_of (term_at self.now.terms number) self.now }
    {
        &self.lists[number]
    }

    /// A number of the term's list, 0 where it has none.
    pub fn figure(&self, term: &[u8], figure: Figure) -> u32
        ensures { result ≡ figure_of figure (list_of term.now self.now) }
    {
        match self.dict.find(term) {
            Some(number) => figure_of(&self.lists[number], figure),
            None => 0,
        }
    }

    /// The sum of a number of the lists of all terms that begin with the prefix, or `most` where that is less.
    pub fn sum(&self, prefix: &[u8], figure: Figure, most: u32) -> u32
        ensures value { result ≡ min most (sum_behind (λ t. figure_of figure (list_of t self.now)) self.now.terms prefix.now None) }
        ensures sound { IsListed self.now }
    {
        let mut total = 0;
        let mut after = None;
        let mut place = Place::FIRST;
        'walk: loop {
            let Some(number) = self.next(prefix, after, &mut place) else {
                return total;
            };
            total = capped(total, figure_of(self.list(number), figure), most);
            after = Some(number);
        }
    }

    fn next(&self, prefix: &[u8], after: Option<usize>, place: &mut Place) -> Option<usize>
        requires there { IfSome after (λ a. a < length self.now.terms) }
        requires begins { IfSome after (λ a. begins_with (term_at self.now.terms a) prefix.now ≡ true) }
        ensures next { MatchOption result (HasNoNext self.now.terms prefix.now after) (λ n. IsNext self.now.terms prefix.now after n) }
        ensures sound { IsListed self.now }
    {
        self.dict.next_with_prefix(prefix, after, place)
    }

    /// The ids in the list of the term.
    pub fn ids(&mut self, term: &[u8]) -> Result<Vec<DocId>, AllocError>
        ensures ok { IfOk result (λ ids. ids.items ≡ ids_of (list_of term.now self.old)) }
        ensures same { self.new ≡ self.old }
    {
        match self.dict.find(term) {
            Some(number) => self.lists[number].ids(self.alloc),
            None => Ok(Vec::new(self.alloc)),
        }
    }

    /// Puts the document into the list of each term, and gives the terms with their numbers.
    pub fn put_all(&mut self, id: DocId, terms: &[DocTerm]) -> Result<PackedTerms, AllocError>
        requires id { 1 ≤ id }
        requires rising { AreTerms terms.now }
        ensures puts { OnOk result (PutsAll id terms.now self.old self.new) }
        ensures grows { OnOk result (Grows self.old.terms self.new.terms) }
        ensures named { IfOk result (λ packed. named_all self.new.terms packed ≡ terms.now) }
        ensures known { IfOk result (λ packed. AreKnown (length self.new.terms) packed) }
    {
        let positions = count_positions(terms);
        let mut packing = Packing::with_capacity(self.alloc, terms.len(), positions)?;
        'terms: for one in terms {
            let number = self.put(id, one.term.as_str().as_bytes(), one.wdf)?;
            packing.push(number, one.wdf, one.positions.as_slice())?;
        }
        let packed = packing.packed(self.alloc)?;
        Ok(packed)
    }

    /// Takes the document out of the list of each of its terms. Want of memory stops nothing.
    pub fn take_out_all(&mut self, id: DocId, packed: &PackedTerms)
        requires known { AreKnown (length self.old.terms) packed.now }
        requires rising { AreTerms (named_all self.old.terms packed.now) }
        ensures takes { TakesOutAll id (named_all self.old.terms packed.now) self.old self.new }
        ensures terms { self.new.terms ≡ self.old.terms }
    {
        'terms: for i in 0..packed.len() {
            self.take_out(id, packed.number(i));
        }
    }

    /// The number of the term, whose list has the document.
    fn put(&mut self, id: DocId, term: &[u8], wdf: u32) -> Result<usize, AllocError>
        requires { 1 ≤ id }
        ensures puts { OnOk result (Puts id term.now wdf self.old self.new) }
        ensures grows { OnOk result (Grows self.old.terms self.new.terms) }
        ensures named { IfOk result (λ n. (n < length self.new.terms) × (term_at self.new.terms n ≡ term.now)) }
    {
        let number = self.number_for(term)?;
        self.put_at(number, id, wdf)?;
        Ok(number)
    }

    fn take_out(&mut self, id: DocId, number: usize)
        requires there { number < length self.old.terms }
        ensures takes { TakesOut id (term_at self.old.terms number) self.old self.new }
        ensures terms { self.new.terms ≡ self.old.terms }
    {
        self.take_out_at(number, id);
    }

    fn put_at(&mut self, number: usize, id: DocId, wdf: u32) -> Result<(), AllocError>
        requires there { number < length self.old.terms }
        requires id { 1 ≤ id }
        ensures sound { IsListed self.old }
        ensures terms { self.new.terms ≡ self.old.terms }
        ensures lists { OnOk result (IsEdited number (put id wdf) self.old.lists self.new.lists) }
    {
        self.lists[number].insert(id, wdf)?;
        Ok(())
    }

    fn take_out_at(&mut self, number: usize, id: DocId)
        requires there { number < length self.old.terms }
        ensures sound { IsListed self.old }
        ensures terms { self.new.terms ≡ self.old.terms }
        ensures lists { IsEdited number (without id) self.old.lists self.new.lists }
    {
        self.lists[number].remove(id);
    }

    /// The number of the term, which is given the next one and an empty list where it has none.
    fn number_for(&mut self, term: &[u8]) -> Result<usize, AllocError>
        ensures found { IfOk result (λ n. number_of term.now self.new.terms ≡ Some n) }
        ensures there { IfOk result (λ n. n < length self.new.terms) }
        ensures same { OnOk result (SameLists self.old self.new) }
        ensures grows { OnOk result (Grows self.old.terms self.new.terms) }
    {
        make_room(&mut self.lists)?;
        let number = self.dict.add(term)?;
        if number < self.lists.len() {
            return Ok(number);
        }
        self.lists.push_reserved(List::new(self.alloc));
        Ok(number)
    }
}

/// How many positions the terms have together.
fn count_positions(terms: &[DocTerm]) -> usize {
    let mut count: usize = 0;
    'terms: for one in terms {
        count = count.saturating_add(one.positions.as_slice().len());
    }
    count
}

fn figure_of(list: &List, figure: Figure) -> u32
    ensures { result ≡ figure_of figure (flat list.now) }
{
    match figure {
        Figure::Length => list.length(),
        Figure::Greatest => list.greatest(),
    }
}

fn capped(total: u32, more: u32, most: u32) -> u32
    ensures { result ≡ min most (total + more) }
{
    total.saturating_add(more).min(most)
}

/// The same lists, in memory of their own.
fn copies_of(alloc: Global, lists: &[List]) -> Result<Vec<List>, AllocError>
    ensures { IfOk result (λ copies. copies.items ≡ lists.now) }
{
    let mut copies = Vec::with_capacity(alloc, lists.len())?;
    'copies: for list in lists {
        let copy = list.copy()?;
        copies.push(copy)?;
    }
    Ok(copies)
}
