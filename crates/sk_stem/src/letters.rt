//! Vowels, consonants and the measure of a word of letters from a to z.

ghost use Rattle.std.specs.Prelude.{◌≡◌};
ghost use Rattle.sk_stem.specs.Letters.{mark, measure, has_vowel, ends_double, ends_cvc};

/// Whether the letter is a vowel, where a consonant stands right before it or not.
fn is_vowel(after_consonant: bool, letter: u8) -> bool
    ensures { result ≡ mark after_consonant letter }
{
    match letter {
        b'a' | b'e' | b'i' | b'o' | b'u' => true,
        b'y' => after_consonant,
        _ => false,
    }
}

/// How often a consonant comes right after a vowel.
pub(crate) fn measure(word: &[u8]) -> usize
    ensures { result ≡ measure word.now }
{
    let mut measure = 0;
    let mut after_vowel = false;
    let mut after_consonant = false;
    'letters: for letter in word {
        let vowel = is_vowel(after_consonant, *letter);
        if after_vowel && !vowel {
            measure += 1;
        }
        after_vowel = vowel;
        after_consonant = !vowel;
    }
    measure
}

/// Whether the word has a vowel.
pub(crate) fn has_vowel(word: &[u8]) -> bool
    ensures { result ≡ has_vowel word.now }
{
    let mut after_consonant = false;
    'letters: for letter in word {
        if is_vowel(after_consonant, *letter) {
            return true;
        }
        after_consonant = true;
    }
    false
}

/// Whether the word ends with two equal consonants. Of two y one is a vowel.
pub(crate) fn ends_double(word: &[u8]) -> bool
    ensures { result ≡ ends_double word.now }
{
    match word {
        [.., c, d] => c == d && !is_vowel(true, *d),
        _ => false,
    }
}

/// Whether the word ends with consonant, vowel, consonant, the last not w, x or y.
pub(crate) fn ends_cvc(word: &[u8]) -> bool
    ensures { result ≡ ends_cvc word.now }
{
    let mut cvc = false;
    let mut cv = false;
    let mut after_consonant = false;
    'letters: for letter in word {
        let vowel = is_vowel(after_consonant, *letter);
        cvc = cv && !vowel;
        cv = after_consonant && vowel;
        after_consonant = !vowel;
    }
    cvc && !(word.ends_with(b"w") || word.ends_with(b"x") || word.ends_with(b"y"))
}
