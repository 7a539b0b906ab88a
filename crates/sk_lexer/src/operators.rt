//! Operators, by how they are spelled.
ghost use Rattle.std.specs.Prelude.{◌≡◌};
ghost use Rattle.sk_grammar.specs.Pieces.{distance, distant, operator_of};

use sk_grammar::Kind;

/// No distance is read as a greater one.
const MOST_DISTANCE: u32 = 65_535;

/// The distance that digits say.
fn distance(digits: &[u8]) -> Option<u32>
    ensures { result ≡ distance digits.now }
{
    let mut n = 0u32;
    'digits: for b in digits {
        if !b.is_ascii_digit() {
            return None;
        }
        n = (n * 10 + (*b - b'0') as u32).min(MOST_DISTANCE);
    }
    Some(n)
}

/// NEAR or ADJ with a distance.
fn distant(text: &[u8]) -> Option<Kind>
    ensures { result ≡ distant text.now }
{
    if text.starts_with(b"NEAR/") {
        let n = distance(&text[5..])?;
        Some(Kind::Near(n))
    } else if text.starts_with(b"ADJ/") {
        let n = distance(&text[4..])?;
        Some(Kind::Adj(n))
    } else {
        None
    }
}

/// The operator that is spelled exactly so.
pub(crate) fn operator_of(text: &str) -> Option<Kind>
    ensures { result ≡ operator_of text.now }
{
    match text {
        "AND" => Some(Kind::And),
        "OR" => Some(Kind::Or),
        "XOR" => Some(Kind::Xor),
        "NOT" => Some(Kind::Not),
        "NEAR" => Some(Kind::Near(10)),
        "ADJ" => Some(Kind::Adj(10)),
        _ => distant(text.as_bytes()),
    }
}
