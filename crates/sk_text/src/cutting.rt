//! Cuts a text into its words.

ghost use Rattle.std.specs.Prelude.{◌≡◌, ◌+◌, ◌*◌, ◌<◌, ◌≤◌, ◌^◌, ◌++◌, length, All, IfOk};
ghost use Rattle.sk_text.specs.Characters.{written_bytes};
ghost use Rattle.sk_text.specs.Words.{ended, words};
ghost use Rattle.sk_text.specs.Layout.{AreWords, EndsWithin};

use crate::characters::{belongs, first_of, is_word};
use crate::folding::fold_written;
use crate::word::{Word, Words};
use std::alloc::{AllocError, Global};

/// The words of `text`, in order, each with its term. It reads the text once, and fails only where memory runs out.
///
/// `AreWords` in `specs/Layout.antt` says what the words of a text are, `words` in `specs/Words.antt` computes them.
pub fn words(alloc: Global, text: &str) -> Result<Words, AllocError>
    requires { length text.now ≤ 1048576 }
    ensures value { IfOk result (λ ws. ws ≡ words text.now) }
    ensures maximal { IfOk result (λ ws. AreWords text.now ws) }
    ensures within { IfOk result (λ ws. All (EndsWithin (length text.now)) ws) }
    ensures count { IfOk result (λ ws. 2 * length ws ≤ length text.now + 1) }
{
    let mut made = Words::new(alloc);
    let mut number = 1u32;
    let mut after = false;
    let mut from = 0usize;
    let mut at = 0usize;
    let mut rest = text.chars();
    'chars: while let Some(c) = rest.next() {
        let behind = rest.as_str();
        let next = text.len() - behind.len();
        let in_word = is_word(c);
        if !belongs(in_word, after, c, first_of(behind)) {
            number = end(alloc, &mut made, number, from, at, &text[from..at])?;
            from = next;
        }
        after = in_word;
        at = next;
    }
    end(alloc, &mut made, number, from, at, &text[from..at])?;
    Ok(made)
}

/// Adds the word that ends at the byte `at`, if one began before, and answers the next number. `word` is what stands
/// there in the text.
fn end(
    alloc: Global,
    made: &mut Words,
    number: u32,
    from: usize,
    at: usize,
    word: &str,
) -> Result<u32, AllocError>
    requires { number + 1 < 2 ^ 32 }
    ensures made { IfOk result (λ _. made.new ≡ made.old ++ ended number from at (written_bytes word.now)) }
    ensures number { IfOk result (λ n. n ≡ number + length (ended number from at (written_bytes word.now))) }
{
    if from == at {
        return Ok(number);
    }
    let term = fold_written(alloc, word)?;
    made.push(Word {
        term,
        from,
        to: at,
        number,
    })?;
    Ok(number + 1)
}
