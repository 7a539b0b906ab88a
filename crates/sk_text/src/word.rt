//! A word of a text, and a list of words.

ghost use Rattle.std.specs.Prelude.{◌≡◌, [], ◌∷◌, ◌++◌, OnOk, OnErr};

use crate::folding::Folded;
use std::alloc::{AllocError, Global};
use std::marker::Model;

/// A word of a text.
#[derive(Debug, Drop)]
pub struct Word {
    /// What the word is compared by.
    pub term: Folded,
    /// The byte of the text at which the word begins.
    pub from: usize,
    /// The byte before which it ends.
    pub to: usize,
    /// The place among the words of the text, from 1.
    pub number: u32,
}

/// The words of a text, in order.
#[derive(Debug, Drop)]
pub struct Words {
    items: Vec<Word>,
}

impl Model for Words {
    ghost use Rattle.std.specs.Prelude.{List};
    ghost use Rattle.sk_text.specs.declared.word.Word.{Word};

    ghost Value = { List Word };

    ghost view = { λ w. w.items.items };
}

impl Words {
    /// No words yet. It takes memory only once there is a word.
    pub fn new(alloc: Global) -> Words
        ensures { result ≡ [] }
    {
        Words {
            items: Vec::new(alloc),
        }
    }

    /// Adds a word at the end.
    pub fn push(&mut self, word: Word) -> Result<(), AllocError>
        ensures ok { OnOk result (self.new ≡ self.old ++ word ∷ []) }
        ensures err { OnErr result (self.new ≡ self.old) }
    {
        self.items.push(word)?;
        Ok(())
    }

    /// The words.
    pub fn as_slice(&self) -> &[Word]
        ensures { result.now ≡ self.now }
    {
        self.items.as_slice()
    }

    /// The words, given up. It takes no memory.
    pub fn into_vec(self) -> Vec<Word>
        ensures { result.items ≡ self }
    {
        self.items
    }
}
