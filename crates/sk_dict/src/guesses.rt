//! Guesses at the numbers of terms.
use std::alloc::{AllocError, Global};

/// For each hash the number of a term that has it: a guess, since others may have it too. Who asks compares the term.
#[derive(Drop)]
pub(crate) struct Guesses {
    alloc: Global,
    /// As many as a power of two, or none.
    numbers: Vec<u32>,
}

impl Guesses {
    /// No guess. It takes no memory.
    pub fn new(alloc: Global) -> Guesses {
        Guesses {
            alloc,
            numbers: Vec::new(alloc),
        }
    }

    /// The same guesses, in memory of their own.
    pub fn copy(&self) -> Result<Guesses, AllocError> {
        let numbers = Vec::from_slice(self.alloc, self.numbers.as_slice())?;
        Ok(Guesses {
            alloc: self.alloc,
            numbers,
        })
    }

    /// A number to compare the term with.
    pub fn number(&self, term: &[u8]) -> Option<usize> {
        let guess = self.numbers.get(self.place(term))?;
        Some(*guess as usize)
    }

    /// The number is the guess for the term from now on.
    pub fn note(&mut self, term: &[u8], number: usize) {
        let place = self.place(term);
        let Ok(number) = u32::try_from(number) else {
            return;
        };
        if let Some(guess) = self.numbers.get_mut(place) {
            *guess = number;
        }
    }

    /// Makes two places for each of so many terms. All guesses are lost where there were fewer. Without memory for them
    /// there are no more places than before.
    pub fn make_places(&mut self, terms: usize) {
        if self.numbers.len() / 2 >= terms {
            return;
        }
        let count = self.numbers.len().saturating_mul(2).max(64);
        if let Ok(numbers) = vec![in self.alloc; 0u32; count] {
            self.numbers = numbers;
        }
    }

    fn place(&self, term: &[u8]) -> usize {
        hash_of(term) as usize & self.numbers.len().wrapping_sub(1)
    }
}

/// The FNV-1a hash, its high half mixed into the low one.
fn hash_of(term: &[u8]) -> u64 {
    let mut hash = 0xcbf2_9ce4_8422_2325_u64;
    'bytes: for byte in term {
        hash = (hash ^ u64::from(*byte)).wrapping_mul(0x100_0000_01b3);
    }
    hash ^ (hash >> 32)
}
