//! Words and their stems.

ghost use Rattle.std.specs.Prelude.{◌≡◌, ◌≢◌, ◌≤◌, [], length, IfOk, string_bytes};
ghost use Rattle.std.specs.Char.{is_ascii_lowercase};
ghost use Rattle.std.specs.List.{list_all};
ghost use Rattle.sk_stem.specs.Stems.{stem, is_stemmed};

use crate::steps::all_steps;
use std::alloc::{AllocError, Global};
use std::marker::Model;

/// The stem of a word.
#[derive(Debug, Drop)]
pub struct Stem {
    text: String,
}

impl Model for Stem {
    ghost use Rattle.std.specs.Prelude.{List, ℕ, string_bytes};

    ghost Value = { List ℕ };

    ghost view = { λ s. string_bytes s.text };
}

impl Stem {
    /// The stem as text.
    pub fn as_str(&self) -> &str
        ensures { result.now ≡ self.now }
    {
        self.text.as_str()
    }

    /// The text itself. It takes no memory.
    pub fn into_string(self) -> String
        ensures { string_bytes result ≡ self }
    {
        self.text
    }
}

/// The stem of `word`, which has letters from a to z: a word with any other byte, or with fewer than three letters, is
/// its own stem. It takes memory once, for as many bytes as the word has, and fails only where there is none.
pub fn porter(alloc: Global, word: &str) -> Result<Stem, AllocError>
    ensures value { IfOk result (λ s. s ≡ stem word.now) }
    ensures length { IfOk result (λ s. length s ≤ length word.now) }
    ensures some { IfOk result (λ s. word.now ≢ [] → s ≢ []) }
{
    let text = String::from_str(alloc, word)?;
    if !is_stemmed(word.as_bytes()) {
        return Ok(Stem { text });
    }
    let mut letters = text.into_bytes();
    all_steps(&mut letters);
    let text = String::from_utf8(letters).unwrap();
    Ok(Stem { text })
}

/// Whether the word has three letters or more, each from a to z.
fn is_stemmed(word: &[u8]) -> bool
    ensures { result ≡ is_stemmed word.now }
{
    word.len() >= 3 && are_letters(word)
}

/// Whether each letter is from a to z.
fn are_letters(word: &[u8]) -> bool
    ensures { result ≡ list_all is_ascii_lowercase word.now }
{
    word.iter().all(|b| b.is_ascii_lowercase())
}
