//! Which characters make up words.

ghost use Rattle.std.specs.Prelude.{◌≡◌, ℕ, List, chars};
ghost use Rattle.std.specs.List.{slice_get};
ghost use Rattle.sk_text.specs.Characters.{is_word_char, is_capital, is_apostrophe, begins_word, belongs, written};

use unicode::properties::GeneralCategory;

/// Whether `c` is a letter, a mark, a number or a connector, by its general category in Unicode.
/// An ASCII character is told without the table.
pub fn is_word(c: char) -> bool
    ensures { result ≡ is_word_char c }
{
    if c.is_ascii() {
        return c.is_ascii_alphanumeric() || c == '_';
    }
    matches!(
        GeneralCategory::for_char(c),
        GeneralCategory::UppercaseLetter
            | GeneralCategory::LowercaseLetter
            | GeneralCategory::TitlecaseLetter
            | GeneralCategory::ModifierLetter
            | GeneralCategory::OtherLetter
            | GeneralCategory::NonspacingMark
            | GeneralCategory::SpacingMark
            | GeneralCategory::EnclosingMark
            | GeneralCategory::DecimalNumber
            | GeneralCategory::LetterNumber
            | GeneralCategory::OtherNumber
            | GeneralCategory::ConnectorPunctuation
    )
}

/// Whether `c` is a capital letter, by its general category in Unicode.
pub fn is_capital(c: char) -> bool
    ensures { result ≡ is_capital c }
{
    matches!(
        GeneralCategory::for_char(c),
        GeneralCategory::UppercaseLetter
    )
}

fn is_apostrophe(c: char) -> bool
    ensures { result ≡ is_apostrophe c }
{
    c == '\'' || c == '\u{2019}'
}

/// Whether a word character comes next.
#[tactic(auto, using(crate::proofs::NextLemmas::begins_some, crate::proofs::NextLemmas::begins_none))]
fn begins_word(next: Option<char>) -> bool
    ensures { (text : List ℕ) → next ≡ slice_get text 0 → result ≡ begins_word text }
{
    match next {
        Some(c) => is_word(c),
        None => false,
    }
}

/// Whether `c` belongs to a word, where `in_word` says that it is a word character, `after` that one stands right
/// before it, and `next` is the character behind it.
pub fn belongs(in_word: bool, after: bool, c: char, next: Option<char>) -> bool
    ensures { in_word ≡ is_word_char c → (behind : List ℕ) → next ≡ slice_get behind 0 → result ≡ belongs after c behind }
{
    in_word || (after && is_apostrophe(c) && begins_word(next))
}

/// The first character of a text.
pub(crate) fn first_of(text: &str) -> Option<char>
    ensures { result ≡ slice_get (chars text.now) 0 }
{
    text.chars().next()
}

/// How `c` is written in a word.
pub(crate) fn written(c: char) -> char
    ensures { result ≡ written c }
{
    if is_apostrophe(c) { '\'' } else { c }
}
