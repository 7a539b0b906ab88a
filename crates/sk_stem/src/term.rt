//! The term of a stem.
ghost use Rattle.std.specs.Prelude.{◌≡◌, IfOk, string_bytes};
ghost use Rattle.sk_stem.specs.Terms.{stem_term};

use crate::porter;
use sk_base::{Term, Text, into_prefixed};
use std::alloc::{AllocError, Global};

/// The term of the stem of `word`, which is a word's term, in a field with this prefix: `S` and `cats` give `ZScat`.
pub fn stem_term(alloc: Global, prefix: &str, word: &str) -> Result<Term, AllocError>
    ensures { IfOk result (λ term. term ≡ stem_term prefix.now word.now) }
{
    let stem = porter(alloc, word)?;
    let mut term = into_prefixed(alloc, prefix, stem.into_string())?;
    term.insert(0, 'Z')?;
    Ok(Text::from_string(term))
}
