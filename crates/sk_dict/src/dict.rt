//! The dictionary.
ghost use Rattle.std.specs.Prelude.{◌≡◌, ◌≢◌, ◌<◌, ◌++◌, ◌∷◌, true, false, Some, None, [], length, is_some, IfOk, OnOk, OnErr, IfSome, MatchOption};
ghost use Rattle.std.specs.List.{AllPairs};
ghost use Rattle.sk_dict.specs.Terms.{term_at, number_of, number_for, with_term, begins_with, IsNext, HasNoNext, IsWalk};
ghost use Rattle.sk_dict.specs.Searches.{start_of, IsFirst, AllPassed};

use crate::block::Block;
use crate::guesses::Guesses;
use crate::order::{Place, find_place, number_at, numbers_with, place_behind, put};
use crate::terms::Terms;
use std::alloc::{AllocError, Global};
use std::fmt::{Debug, Error, Formatter, Write};
use std::marker::Model;

/// Terms, each with a number from 0 in the order in which they came. Contracts see it as the list of the terms by
/// number; `Debug` tells how many there are, and shows none.
#[derive(Drop)]
pub struct Dict {
    terms: Terms,
    /// The numbers in the order of their terms.
    blocks: Vec<Block>,
    guesses: Guesses,
}

impl Model for Dict {
    ghost use Rattle.std.specs.Prelude.{List, ℕ};
    ghost use Rattle.std.specs.List.{concat};
    ghost use Rattle.sk_dict.specs.Order.{IsOrder};

    ghost Value = { List (List ℕ) };

    ghost view = { λ d. d.terms };

    ghost invariant = { λ d. IsOrder d.terms (concat d.blocks.items) };
}

impl Dict {
    /// The dictionary without a term. It keeps the allocator, and takes no memory.
    pub fn new(alloc: Global) -> Dict
        ensures { result ≡ [] }
    {
        Dict {
            terms: Terms::new(alloc),
            blocks: Vec::new(alloc),
            guesses: Guesses::new(alloc),
        }
    }

    /// The same terms with the same numbers, in memory of their own.
    pub fn copy(&self) -> Result<Dict, AllocError>
        ensures { IfOk result (λ copy. copy ≡ self.now) }
    {
        let terms = self.terms.copy()?;
        let blocks = copies_of(terms.allocator(), self.blocks.as_slice())?;
        let guesses = self.guesses.copy()?;
        Ok(Dict {
            terms,
            blocks,
            guesses,
        })
    }

    /// How many terms there are.
    pub fn len(&self) -> usize
        ensures count { result ≡ length self.now }
        ensures different { AllPairs (λ s t. s ≢ t) self.now }
    {
        self.terms.len()
    }

    /// The term with this number.
    pub fn term(&self, number: usize) -> &[u8]
        requires { number < length self.now }
        ensures { result.now ≡ term_at self.now number }
    {
        self.terms.get(number)
    }

    /// The number of the term. It takes no memory.
    pub fn find(&self, term: &[u8]) -> Option<usize>
        ensures value { result ≡ number_of term.now self.now }
        ensures there { IfSome result (λ n. n < length self.now) }
    {
        match self.guessed(term) {
            Some(number) => Some(number),
            None => self.searched(term),
        }
    }

    /// The number of the term, which is given the next one where it is new.
    pub fn add(&mut self, term: &[u8]) -> Result<usize, AllocError>
        ensures ok { IfOk result (λ n. n ≡ number_for term.now self.old) }
        ensures after { OnOk result (self.new ≡ with_term term.now self.old) }
        ensures found { IfOk result (λ n. number_of term.now self.new ≡ Some n) }
        ensures there { IfOk result (λ n. n < length self.new) }
        ensures err { OnErr result (self.new ≡ self.old) }
    {
        if let Some(number) = self.guessed(term) {
            return Ok(number);
        }
        match self.searched(term) {
            Some(number) => {
                self.guesses.note(term, number);
                Ok(number)
            }
            None => self.add_new(term),
        }
    }

    /// The number of the term, where it is the one that is guessed.
    fn guessed(&self, term: &[u8]) -> Option<usize>
        ensures value { IfSome result (λ n. number_of term.now self.now ≡ Some n) }
        ensures there { IfSome result (λ n. n < length self.now) }
    {
        let number = self.guesses.number(term)?;
        if number < self.terms.len() && self.terms.get(number) == term {
            Some(number)
        } else {
            None
        }
    }

    /// The number of the term, by its place in the order of all.
    fn searched(&self, term: &[u8]) -> Option<usize>
        ensures value { result ≡ number_of term.now self.now }
        ensures there { IfSome result (λ n. n < length self.now) }
    {
        let number = self.first(term)?;
        if self.terms.get(number) == term {
            Some(number)
        } else {
            None
        }
    }

    /// The number of the first term that begins with the prefix and stands behind the term with the number `after`, if
    /// one is given. It takes no memory. `place` is left where that was found: with it the next call need not search. Any
    /// place will do.
    pub fn next_with_prefix(
        &self,
        prefix: &[u8],
        after: Option<usize>,
        place: &mut Place,
    ) -> Option<usize>
        requires there { IfSome after (λ a. a < length self.now) }
        requires begins { IfSome after (λ a. begins_with (term_at self.now a) prefix.now ≡ true) }
        ensures { MatchOption result (HasNoNext self.now prefix.now after) (λ n. IsNext self.now prefix.now after n) }
    {
        let number = self.first_behind(prefix, after, place)?;
        if self.term(number).starts_with(prefix) {
            Some(number)
        } else {
            None
        }
    }

    /// The numbers of all terms that begin with the prefix, in byte order of the terms. One search finds the first.
    pub fn with_prefix(&self, prefix: &[u8]) -> Result<Vec<usize>, AllocError>
        ensures { IfOk result (λ ns. IsWalk self.now prefix.now None ns.items) }
    {
        if self.blocks.is_empty() {
            return Ok(Vec::new(self.terms.allocator()));
        }
        let start = find_place(&self.terms, &self.blocks, prefix, false);
        let found = numbers_with(&self.terms, &self.blocks, prefix, start)?;
        Ok(found)
    }

    /// The first term at the key, or behind it.
    fn first(&self, key: &[u8]) -> Option<usize>
        ensures { MatchOption result (AllPassed self.now key.now false) (λ n. IsFirst self.now key.now false n) }
    {
        if self.blocks.is_empty() {
            return None;
        }
        let place = find_place(&self.terms, &self.blocks, key, false);
        number_at(&self.blocks, place)
    }

    /// The first term at the prefix or behind it, or behind the term with this number.
    fn first_behind(&self, prefix: &[u8], after: Option<usize>, place: &mut Place) -> Option<usize>
        requires { IfSome after (λ a. a < length self.now) }
        ensures { MatchOption result (AllPassed self.now (start_of self.now prefix.now after) (is_some after))
            (λ n. IsFirst self.now (start_of self.now prefix.now after) (is_some after) n) }
    {
        if self.blocks.is_empty() {
            return None;
        }
        let Some(number) = after else {
            *place = find_place(&self.terms, &self.blocks, prefix, false);
            return number_at(&self.blocks, *place);
        };
        *place = place_behind(&self.terms, &self.blocks, number, *place);
        number_at(&self.blocks, *place)
    }

    /// Gives the next number to a term that is not there.
    fn add_new(&mut self, term: &[u8]) -> Result<usize, AllocError>
        requires { number_of term.now self.old ≡ None }
        ensures ok { IfOk result (λ n. n ≡ length self.old) }
        ensures after { OnOk result (self.new ≡ self.old ++ term.now ∷ []) }
        ensures found { IfOk result (λ n. number_of term.now self.new ≡ Some n) }
        ensures there { IfOk result (λ n. n < length self.new) }
        ensures err { OnErr result (self.new ≡ self.old) }
    {
        let number = self.terms.len();
        self.terms.push(term)?;
        match put(
            &mut self.blocks,
            self.terms.allocator(),
            &self.terms,
            term,
            number,
        ) {
            Ok(()) => {
                self.guesses.make_places(self.terms.len());
                self.guesses.note(term, number);
                Ok(number)
            }
            Err(fault) => {
                self.terms.truncate(number);
                Err(fault)
            }
        }
    }
}

impl Debug for Dict {
    fn fmt<W: Write>(&self, f: &mut Formatter<W>) -> Result<(), Error> {
        write!(f, "Dict of {}", self.len())
    }
}

/// The same blocks, in memory of their own.
fn copies_of(alloc: Global, blocks: &[Block]) -> Result<Vec<Block>, AllocError>
    ensures { IfOk result (λ copies. copies.items ≡ blocks.now) }
{
    let mut copies = Vec::with_capacity(alloc, blocks.len())?;
    'copies: for block in blocks {
        let copy = block.copy()?;
        copies.push(copy)?;
    }
    Ok(copies)
}
