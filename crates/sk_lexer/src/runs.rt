//! Runs of characters.
ghost use Rattle.std.specs.Prelude.{◌≡◌, ◌≤◌, ◌<◌, ◌+◌, false, not, length, drop, position};
ghost use Rattle.std.specs.List.{prefix_len, slice_get};
ghost use Rattle.sk_base.specs.Names.{is_name_byte};
ghost use Rattle.sk_text.specs.Characters.{begins_word};
ghost use Rattle.sk_grammar.specs.Characters.{begins_capital, is_joiner, group_len, runs_on, run_len};

use sk_text::{belongs, is_capital, is_word};

pub(crate) fn is_joiner(c: char) -> bool
    ensures { result ≡ is_joiner c }
{
    matches!(c, '.' | '-' | '/' | ':' | '\\' | '@')
}

pub(crate) fn begins_word(cs: &[char]) -> bool
    ensures { result ≡ begins_word cs.now }
{
    match cs {
        [c, ..] => is_word(*c),
        [] => false,
    }
}

/// Whether a capital letter stands first.
pub(crate) fn begins_capital(cs: &[char]) -> bool
    ensures { result ≡ begins_capital cs.now }
{
    match cs {
        [c, ..] => is_capital(*c),
        [] => false,
    }
}

/// The character behind a place.
fn first_behind(cs: &[char], i: usize) -> Option<char>
    requires { i < length cs.now }
    ensures { result ≡ slice_get (drop (i + 1) cs.now) 0 }
{
    cs[i + 1..].first().copied()
}

/// The characters behind the first so many.
pub(crate) fn drop_front(cs: &[char], n: usize) -> &[char]
    requires { n ≤ length cs.now }
    ensures { result.now ≡ drop n cs.now }
{
    &cs[n..]
}

/// How many characters the group at the front has.
pub(crate) fn group_len(cs: &[char]) -> usize
    ensures value { result ≡ group_len false cs.now }
    ensures within { result ≤ length cs.now }
{
    let mut end = 0usize;
    let mut after = false;
    'cs: for i in 0..cs.len() {
        let c = cs[i];
        let in_word = is_word(c);
        if belongs(in_word, after, c, first_behind(cs, i)) {
            end = i + 1;
        } else if !is_joiner(c) {
            return end;
        }
        after = in_word;
    }
    end
}

pub(crate) fn runs_on(c: char) -> bool
    ensures { result ≡ runs_on c }
{
    !c.is_whitespace() && c != ')'
}

/// Where the run at the front ends, before the end of the characters.
fn run_end(cs: &[char]) -> Option<usize>
    ensures { result ≡ position (λ c. not (runs_on c)) cs.now }
{
    cs.iter().position(|c| !runs_on(*c))
}

/// How many characters the run at the front has.
pub(crate) fn run_len(cs: &[char]) -> usize
    ensures value { result ≡ run_len cs.now }
    ensures within { result ≤ length cs.now }
{
    run_end(cs).unwrap_or(cs.len())
}

fn is_name_char(c: char) -> bool
    ensures { result ≡ is_name_byte c }
{
    c.is_ascii_lowercase() || c.is_ascii_digit() || c == '_'
}

/// Where the name at the front ends, before the end of the characters.
fn name_end(cs: &[char]) -> Option<usize>
    ensures { result ≡ position (λ c. not (is_name_byte c)) cs.now }
{
    cs.iter().position(|c| !is_name_char(*c))
}

/// How many characters the name at the front has.
pub(crate) fn name_len(cs: &[char]) -> usize
    ensures value { result ≡ prefix_len is_name_byte cs.now }
    ensures within { result ≤ length cs.now }
{
    name_end(cs).unwrap_or(cs.len())
}
