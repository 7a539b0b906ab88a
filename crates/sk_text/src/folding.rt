//! Words with their differences of case and of spelling in Unicode taken away.

ghost use Rattle.std.specs.Prelude.{◌≡◌, ◌==◌, chars, IsAscii, IfOk, string_bytes};
ghost use Rattle.std.specs.List.{list_all};
ghost use Rattle.sk_text.specs.Characters.{written, written_bytes};
ghost use Rattle.sk_text.specs.Terms.{term_of};

use crate::characters::written;
use caseless::default_case_fold_str;
use std::alloc::{AllocError, Global};
use std::marker::Model;
use unicode_normalization::{to_nfc, to_nfd};

/// A word in the form in which it is compared with others.
#[derive(Debug, Drop)]
pub struct Folded {
    text: String,
}

impl Model for Folded {
    ghost use Rattle.std.specs.Prelude.{List, ℕ, string_bytes};

    ghost Value = { List ℕ };

    ghost view = { λ f. string_bytes f.text };
}

impl Folded {
    /// The word as text.
    pub fn as_str(&self) -> &str
        ensures { result.now ≡ self.now }
    {
        self.text.as_str()
    }

    /// The text itself. It takes no memory.
    pub fn into_string(self) -> String
        ensures { string_bytes result ≡ self }
    {
        self.text
    }
}

/// The term of `word`. A word that folds to nothing keeps its own text, and one of ASCII is folded without the tables.
pub fn fold(alloc: Global, word: &str) -> Result<Folded, AllocError>
    ensures { IfOk result (λ f. f ≡ term_of word.now) }
{
    if word.is_ascii() {
        fold_ascii(alloc, word)
    } else {
        fold_by_tables(alloc, word)
    }
}

/// The term of a word as it stands in a text, where an apostrophe may be U+2019.
pub(crate) fn fold_written(alloc: Global, word: &str) -> Result<Folded, AllocError>
    ensures { IfOk result (λ f. f ≡ term_of (written_bytes word.now)) }
{
    if word.is_ascii() {
        return fold_ascii(alloc, word);
    }
    if stands_as_written(word) {
        return fold_by_tables(alloc, word);
    }
    let mut text = String::new(alloc);
    'word: for c in word.chars() {
        text.push(written(c))?;
    }
    fold(alloc, text.as_str())
}

/// Whether each character is written as it stands in the text.
fn stands_as_written(word: &str) -> bool
    ensures { result ≡ list_all (λ c. written c == c) (chars word.now) }
{
    word.chars().all(|c| written(c) == c)
}

/// The term of a word of ASCII: its capitals made small.
fn fold_ascii(alloc: Global, word: &str) -> Result<Folded, AllocError>
    ensures { IsAscii word.now → IfOk result (λ f. f ≡ term_of word.now) }
{
    let text = word.to_ascii_lowercase(alloc)?;
    Ok(Folded { text })
}

/// The term of a word of any characters, by the tables of Unicode.
fn fold_by_tables(alloc: Global, word: &str) -> Result<Folded, AllocError>
    ensures { IfOk result (λ f. f ≡ term_of word.now) }
{
    let apart = to_nfd(alloc, word)?;
    let folded = default_case_fold_str(alloc, apart.as_str())?;
    let text = to_nfc(alloc, folded.as_str())?;
    if text.is_empty() {
        let text = String::from_str(alloc, word)?;
        return Ok(Folded { text });
    }
    Ok(Folded { text })
}
