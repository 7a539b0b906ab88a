//! The forms of words that a program takes.
ghost use Rattle.std.specs.Prelude.{◌≡◌, [], ◌∷◌, true, map, string_bytes};
ghost use Rattle.std.specs.List.{list_all};
ghost use Rattle.std.specs.Char.{is_ascii_digit};
ghost use Rattle.std.specs.Str.Parse.{digits_value};
ghost use Rattle.sk_run.specs.Forms.{is_size, demo_of, demo_form, two_words, three_words, form_of};

use sk_base::Join;

/// The greatest number of documents of a demonstration.
const MOST_DOCUMENTS: u32 = 200_000;

/// What the words ask for.
#[derive(Clone, Copy, Debug, PartialEq, Eq)]
pub enum Form {
    /// Each line of the input is a command.
    Run,
    /// Each line of the records is a command, and then each line of the input a query text whose words are joined so.
    Search(Join),
    /// The commands of a demonstration with so many documents.
    Demo(u32),
}

/// What the words ask for, none where they are no form.
pub fn form_of(words: &[String]) -> Option<Form>
    ensures { result ≡ form_of (map string_bytes words.now) }
{
    match words {
        [word] => one_word(word.as_str()),
        [word, other] => two_words(word.as_str(), other.as_str()),
        [word, _, join] => three_words(word.as_str(), join.as_str()),
        _ => None,
    }
}

fn one_word(word: &str) -> Option<Form>
    ensures { result ≡ form_of (word.now ∷ []) }
{
    if word == "run" { Some(Form::Run) } else { None }
}

fn two_words(word: &str, other: &str) -> Option<Form>
    ensures { result ≡ two_words word.now other.now }
{
    if word == "search" {
        Some(Form::Search(Join::Or))
    } else if word == "demo" {
        demo_form(other)
    } else {
        None
    }
}

fn three_words(word: &str, join: &str) -> Option<Form>
    ensures { result ≡ three_words word.now join.now }
{
    if word == "search" && join == "and" {
        Some(Form::Search(Join::And))
    } else {
        None
    }
}

/// A demonstration of as many documents as the word says.
fn demo_form(word: &str) -> Option<Form>
    ensures { result ≡ demo_form word.now }
{
    if is_size(word.as_bytes()) {
        demo_of(word)
    } else {
        None
    }
}

/// Whether it is a decimal number without a leading zero.
fn is_size(word: &[u8]) -> bool
    ensures { result ≡ is_size word.now }
{
    match word {
        [] => false,
        [first, ..] => *first != b'0' && are_digits(word),
    }
}

fn are_digits(word: &[u8]) -> bool
    ensures { result ≡ list_all is_ascii_digit word.now }
{
    word.iter().all(|b| b.is_ascii_digit())
}

/// A demonstration of so many documents, where they are not too many.
fn demo_of(digits: &str) -> Option<Form>
    requires { is_size digits.now ≡ true }
    ensures { result ≡ demo_of (digits_value 10 digits.now) }
{
    match digits.parse::<u32>() {
        Ok(documents) => within(documents),
        Err(_) => None,
    }
}

fn within(documents: u32) -> Option<Form>
    ensures { result ≡ demo_of documents }
{
    if documents <= MOST_DOCUMENTS {
        Some(Form::Demo(documents))
    } else {
        None
    }
}
