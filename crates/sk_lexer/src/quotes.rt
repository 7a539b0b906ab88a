//! Quotes, by what stands behind their first `"`.
ghost use Rattle.std.specs.Prelude.{◌≡◌, ◌≤◌, ◌<◌, ◌+◌, ◌^◌, ◌==◌, length, position};
ghost use Rattle.sk_grammar.specs.Characters.{inner_len, inner, quote_len, is_good};

use sk_text::is_word;

/// Where the next `"` stands.
fn next_quote(cs: &[char]) -> Option<usize>
    ensures { result ≡ position (λ c. c == 34) cs.now }
{
    cs.iter().position(|c| *c == '"')
}

fn inner_len(cs: &[char]) -> usize
    ensures value { result ≡ inner_len cs.now }
    ensures within { result ≤ length cs.now }
{
    next_quote(cs).unwrap_or(cs.len())
}

/// What stands inside.
pub(crate) fn inner(cs: &[char]) -> &[char]
    ensures { result.now ≡ inner cs.now }
{
    &cs[..inner_len(cs)]
}

/// How many characters the quote has.
pub(crate) fn quote_len(cs: &[char]) -> usize
    requires { length cs.now + 1 < 2 ^ 64 }
    ensures { result ≡ quote_len cs.now }
{
    let inside = inner_len(cs);
    if inside < cs.len() {
        inside + 2
    } else {
        inside + 1
    }
}

/// Whether a word stands inside.
pub(crate) fn is_good(cs: &[char]) -> bool
    ensures { result ≡ is_good cs.now }
{
    inner(cs).iter().any(|c| is_word(*c))
}
