//! The steps of the algorithm, each on a word of letters from a to z.

ghost use Rattle.std.specs.Prelude.{◌≡◌, ◌≤◌, ◌||◌, length, codes};
ghost use Rattle.sk_stem.specs.Letters.{ends_in};
ghost use Rattle.sk_stem.specs.Stems.{
  step_1a,
  step_1b,
  step_1c,
  step_2,
  step_3,
  step_4,
  step_5a,
  step_5b,
  completed,
  repaired,
  stripped,
  loses_e,
  after_all_steps,
};
ghost use Rattle.sk_stem.specs.Tables.{completed_as};

use crate::letters::{ends_cvc, ends_double, has_vowel, measure};
use crate::rules::{RULES_1A, RULES_1C, RULES_2, RULES_3, RULES_4, apply, replace};

/// All steps, one after the other.
pub(crate) fn all_steps(word: &mut Vec<u8>)
    ensures { word.new.items ≡ after_all_steps word.old.items }
{
    step_1a(word);
    step_1b(word);
    step_1c(word);
    step_2(word);
    step_3(word);
    step_4(word);
    step_5a(word);
    step_5b(word);
}

#[tactic(auto, unfolding(crate::specs::Stems::step_1a, crate::specs::Rules::rules_1a))]
fn step_1a(word: &mut Vec<u8>)
    ensures { word.new.items ≡ step_1a word.old.items }
{
    apply(&RULES_1A, word);
}

#[tactic(auto, unfolding(crate::specs::Stems::step_1b))]
fn step_1b(word: &mut Vec<u8>)
    ensures { word.new.items ≡ step_1b word.old.items }
{
    if word.ends_with(b"eed") {
        if measure(&word[..word.len() - 3]) > 0 {
            word.truncate(word.len() - 1);
        }
    } else if word.ends_with(b"ed") {
        strip(word, 2);
    } else if word.ends_with(b"ing") {
        strip(word, 3);
    }
}

/// Takes ed or ing, of so many letters, off the word, and completes it, where a vowel stands before them.
fn strip(word: &mut Vec<u8>, letters: usize)
    requires some { 1 ≤ letters }
    requires fits { letters ≤ length word.old.items }
    ensures { word.new.items ≡ stripped letters word.old.items }
{
    let stem = word.len() - letters;
    if !has_vowel(&word[..stem]) {
        return;
    }
    match completion_of(&word[..stem]) {
        Completion::AddE => replace(word, stem, b"e"),
        Completion::DropLast => word.truncate(stem - 1),
        Completion::Leave => word.truncate(stem),
    }
}

/// What becomes of a word from which ed or ing was taken off.
#[derive(Clone, Copy, Debug)]
pub(crate) enum Completion {
    AddE,
    DropLast,
    Leave,
}

fn completion_of(word: &[u8]) -> Completion
    ensures value { completed word.now ≡ completed_as result word.now }
    ensures some { result ≡ Completion.DropLast → 1 ≤ length word.now }
{
    if takes_e(word) {
        return Completion::AddE;
    }
    repair_of(word)
}

/// Whether an e follows where ed or ing stood.
fn takes_e(word: &[u8]) -> bool
    ensures { result ≡ (ends_in (codes "at") word.now || ends_in (codes "bl") word.now || ends_in (codes "iz") word.now) }
{
    word.ends_with(b"at") || word.ends_with(b"bl") || word.ends_with(b"iz")
}

/// The same of any other word.
fn repair_of(word: &[u8]) -> Completion
    ensures value { repaired word.now ≡ completed_as result word.now }
    ensures some { result ≡ Completion.DropLast → 1 ≤ length word.now }
{
    if ends_double(word)
        && !(word.ends_with(b"l") || word.ends_with(b"s") || word.ends_with(b"z"))
    {
        return Completion::DropLast;
    }
    if measure(word) == 1 && ends_cvc(word) {
        return Completion::AddE;
    }
    Completion::Leave
}

#[tactic(auto, unfolding(crate::specs::Stems::step_1c, crate::specs::Rules::rules_1c))]
fn step_1c(word: &mut Vec<u8>)
    ensures { word.new.items ≡ step_1c word.old.items }
{
    apply(&RULES_1C, word);
}

#[tactic(auto, unfolding(crate::specs::Stems::step_2, crate::specs::Rules::rules_2))]
fn step_2(word: &mut Vec<u8>)
    ensures { word.new.items ≡ step_2 word.old.items }
{
    apply(&RULES_2, word);
}

#[tactic(auto, unfolding(crate::specs::Stems::step_3, crate::specs::Rules::rules_3))]
fn step_3(word: &mut Vec<u8>)
    ensures { word.new.items ≡ step_3 word.old.items }
{
    apply(&RULES_3, word);
}

#[tactic(auto, unfolding(crate::specs::Stems::step_4, crate::specs::Rules::rules_4))]
fn step_4(word: &mut Vec<u8>)
    ensures { word.new.items ≡ step_4 word.old.items }
{
    apply(&RULES_4, word);
}

#[tactic(auto, unfolding(crate::specs::Stems::step_5a))]
fn step_5a(word: &mut Vec<u8>)
    ensures { word.new.items ≡ step_5a word.old.items }
{
    if word.ends_with(b"e") && loses_e(&word[..word.len() - 1]) {
        word.truncate(word.len() - 1);
    }
}

/// Whether the e behind this stem goes.
fn loses_e(stem: &[u8]) -> bool
    ensures { result ≡ loses_e stem.now }
{
    let measure = measure(stem);
    measure > 1 || (measure == 1 && !ends_cvc(stem))
}

#[tactic(auto, unfolding(crate::specs::Stems::step_5b))]
fn step_5b(word: &mut Vec<u8>)
    ensures { word.new.items ≡ step_5b word.old.items }
{
    if word.ends_with(b"ll") && measure(&word[..word.len() - 1]) > 1 {
        word.truncate(word.len() - 1);
    }
}
