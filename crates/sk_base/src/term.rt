//! Terms and values that are made of what a document gives.
ghost use Rattle.std.specs.Prelude.{◌≡◌, IfOk, string_bytes};
ghost use Rattle.std.specs.Int.{to_be_bytes, w64};
ghost use Rattle.sk_base.specs.Terms.{prefixed, needs_colon, begins_like_prefix};

use crate::{Term, Text};
use std::alloc::{AllocError, Global};

/// The term of a text under a prefix. Behind a prefix of several letters a text that begins with a capital letter
/// or a colon stands behind a colon: `XCAT` and `Dog` give `XCAT:Dog`.
pub fn prefixed(alloc: Global, prefix: &str, text: &str) -> Result<Term, AllocError>
    ensures { IfOk result (λ term. term ≡ prefixed prefix.now text.now) }
{
    if needs_colon(prefix.as_bytes(), text.as_bytes()) {
        let string = format!(in alloc; "{prefix}:{text}")?;
        Ok(Text::from_string(string))
    } else {
        let string = format!(in alloc; "{prefix}{text}")?;
        Ok(Text::from_string(string))
    }
}

/// The same of a text that is given up: without a prefix the text is the term, and is not copied.
pub fn into_prefixed(alloc: Global, prefix: &str, text: String) -> Result<String, AllocError>
    ensures { IfOk result (λ term. string_bytes term ≡ prefixed prefix.now (string_bytes text)) }
{
    if prefix.is_empty() {
        return Ok(text);
    }
    let term = prefixed(alloc, prefix, text.as_str())?;
    Ok(term.into_string())
}

fn needs_colon(prefix: &[u8], text: &[u8]) -> bool
    ensures { result ≡ needs_colon prefix.now text.now }
{
    prefix.len() > 1 && begins_like_prefix(text)
}

fn begins_like_prefix(text: &[u8]) -> bool
    ensures { result ≡ begins_like_prefix text.now }
{
    match text {
        [] => false,
        [first, ..] => first.is_ascii_uppercase() || *first == b':',
    }
}

/// The value that a number is kept as: its eight bytes, the most significant first.
pub fn number_bytes(n: u64) -> [u8; 8]
    ensures { result ≡ to_be_bytes w64 n }
{
    n.to_be_bytes()
}
