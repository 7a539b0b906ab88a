//! Rules: which suffix of a word is taken off, what is put there, and when.

ghost use Rattle.std.specs.Prelude.{◌≡◌, ◌+◌, ◌≤◌, ◌++◌, length, take, map, option_map, IfSome, IsTrue};
ghost use Rattle.sk_stem.specs.Letters.{ends_in};
ghost use Rattle.sk_stem.specs.Rules.{longest, by_rules};
ghost use Rattle.sk_stem.specs.Tables.{condition_of, rule_of, is_table, Fits};

use crate::letters::{has_vowel, measure};

/// What must hold of the stem, which stands before the suffix.
#[derive(Clone, Copy, Debug)]
pub(crate) enum Condition {
    Always,
    HasVowel,
    MeasureAbove0,
    MeasureAbove1,
    MeasureAbove1AfterSOrT,
}

/// A suffix, what comes in its place, and when.
#[derive(Clone, Copy, Debug)]
pub(crate) struct Rule(&'static [u8], &'static [u8], Condition);

/// Plurals.
pub(crate) const RULES_1A: [Rule; 4] = [
    Rule(b"sses", b"ss", Condition::Always),
    Rule(b"ies", b"i", Condition::Always),
    Rule(b"ss", b"ss", Condition::Always),
    Rule(b"s", b"", Condition::Always),
];

/// A last y behind a vowel.
pub(crate) const RULES_1C: [Rule; 1] = [Rule(b"y", b"i", Condition::HasVowel)];

/// Double suffixes.
pub(crate) const RULES_2: [Rule; 20] = [
    Rule(b"ational", b"ate", Condition::MeasureAbove0),
    Rule(b"tional", b"tion", Condition::MeasureAbove0),
    Rule(b"enci", b"ence", Condition::MeasureAbove0),
    Rule(b"anci", b"ance", Condition::MeasureAbove0),
    Rule(b"izer", b"ize", Condition::MeasureAbove0),
    Rule(b"abli", b"able", Condition::MeasureAbove0),
    Rule(b"alli", b"al", Condition::MeasureAbove0),
    Rule(b"entli", b"ent", Condition::MeasureAbove0),
    Rule(b"eli", b"e", Condition::MeasureAbove0),
    Rule(b"ousli", b"ous", Condition::MeasureAbove0),
    Rule(b"ization", b"ize", Condition::MeasureAbove0),
    Rule(b"ation", b"ate", Condition::MeasureAbove0),
    Rule(b"ator", b"ate", Condition::MeasureAbove0),
    Rule(b"alism", b"al", Condition::MeasureAbove0),
    Rule(b"iveness", b"ive", Condition::MeasureAbove0),
    Rule(b"fulness", b"ful", Condition::MeasureAbove0),
    Rule(b"ousness", b"ous", Condition::MeasureAbove0),
    Rule(b"aliti", b"al", Condition::MeasureAbove0),
    Rule(b"iviti", b"ive", Condition::MeasureAbove0),
    Rule(b"biliti", b"ble", Condition::MeasureAbove0),
];

/// What is left of double suffixes, and a few more.
pub(crate) const RULES_3: [Rule; 7] = [
    Rule(b"icate", b"ic", Condition::MeasureAbove0),
    Rule(b"ative", b"", Condition::MeasureAbove0),
    Rule(b"alize", b"al", Condition::MeasureAbove0),
    Rule(b"iciti", b"ic", Condition::MeasureAbove0),
    Rule(b"ical", b"ic", Condition::MeasureAbove0),
    Rule(b"ful", b"", Condition::MeasureAbove0),
    Rule(b"ness", b"", Condition::MeasureAbove0),
];

/// Single suffixes.
pub(crate) const RULES_4: [Rule; 19] = [
    Rule(b"al", b"", Condition::MeasureAbove1),
    Rule(b"ance", b"", Condition::MeasureAbove1),
    Rule(b"ence", b"", Condition::MeasureAbove1),
    Rule(b"er", b"", Condition::MeasureAbove1),
    Rule(b"ic", b"", Condition::MeasureAbove1),
    Rule(b"able", b"", Condition::MeasureAbove1),
    Rule(b"ible", b"", Condition::MeasureAbove1),
    Rule(b"ant", b"", Condition::MeasureAbove1),
    Rule(b"ement", b"", Condition::MeasureAbove1),
    Rule(b"ment", b"", Condition::MeasureAbove1),
    Rule(b"ent", b"", Condition::MeasureAbove1),
    Rule(b"ion", b"", Condition::MeasureAbove1AfterSOrT),
    Rule(b"ou", b"", Condition::MeasureAbove1),
    Rule(b"ism", b"", Condition::MeasureAbove1),
    Rule(b"ate", b"", Condition::MeasureAbove1),
    Rule(b"iti", b"", Condition::MeasureAbove1),
    Rule(b"ous", b"", Condition::MeasureAbove1),
    Rule(b"ive", b"", Condition::MeasureAbove1),
    Rule(b"ize", b"", Condition::MeasureAbove1),
];

impl Condition {
    /// Whether it holds of this stem.
    fn holds(self, stem: &[u8]) -> bool
        ensures { result ≡ condition_of self stem.now }
    {
        match self {
            Condition::Always => true,
            Condition::HasVowel => has_vowel(stem),
            Condition::MeasureAbove0 => measure(stem) > 0,
            Condition::MeasureAbove1 => measure(stem) > 1,
            Condition::MeasureAbove1AfterSOrT => {
                measure(stem) > 1 && (stem.ends_with(b"s") || stem.ends_with(b"t"))
            }
        }
    }
}

/// The first of the rules whose suffix the word ends with. No rule stands before one with a longer suffix that ends
/// with its own, so it is the one with the longest suffix.
fn rule_for(rules: &[Rule], word: &[u8]) -> Option<Rule>
    requires { IsTrue (is_table (map rule_of rules.now)) }
    ensures value { option_map rule_of result ≡ longest word.now (map rule_of rules.now) }
    ensures fits { IfSome result (λ r. Fits (rule_of r) word.now) }
{
    'rules: for rule in rules {
        if ends_in(rule.0, word) {
            return Some(*rule);
        }
    }
    None
}

/// Whether the word ends with the suffix. Of most suffixes the last letter tells.
fn ends_in(suffix: &[u8], word: &[u8]) -> bool
    ensures value { result ≡ ends_in suffix.now word.now }
    ensures bound { IsTrue result → length suffix.now ≤ length word.now }
{
    if let [.., a] = suffix {
        if let [.., b] = word {
            return a == b && word.ends_with(suffix);
        }
    }
    word.ends_with(suffix)
}

/// Puts the word through the rules.
#[tactic(auto, unfolding(crate::specs::Rules::by_rules))]
pub(crate) fn apply(rules: &[Rule], word: &mut Vec<u8>)
    requires { IsTrue (is_table (map rule_of rules.now)) }
    ensures { word.new.items ≡ by_rules (map rule_of rules.now) word.old.items }
{
    if let Some(Rule(suffix, replacement, condition)) = rule_for(rules, word) {
        let stem = word.len() - suffix.len();
        if condition.holds(&word[..stem]) {
            replace(word, stem, replacement);
        }
    }
}

/// Ends the word at `stem`, and puts the replacement there.
pub(crate) fn replace(word: &mut Vec<u8>, stem: usize, replacement: &[u8])
    requires { stem + length replacement.now ≤ length word.old.items }
    ensures { word.new.items ≡ take stem word.old.items ++ replacement.now }
{
    let end = stem + replacement.len();
    word[stem..end].copy_from_slice(replacement);
    word.truncate(end);
}
