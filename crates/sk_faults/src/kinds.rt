//! What a token is, for its neighbours.
ghost use Rattle.std.specs.Prelude.{◌≡◌, ◌≤◌, ◌+◌, ◌^◌, ◌<◌, length};
ghost use Rattle.sk_grammar.specs.Faults.{is_item, is_word, is_open, is_close, is_mark, is_not, is_joining, is_near_sign, is_adj_sign, begins_unit, ends_unit, leaves_by, first_is, kinds_of};

use sk_grammar::{Kind, Token};

pub(crate) fn is_item(kind: &Kind) -> bool
    ensures { result ≡ is_item kind.now }
{
    matches!(
        kind,
        Kind::Word(_, _, _)
            | Kind::Wild(_, _)
            | Kind::Joined(_, _)
            | Kind::Quote(_, _)
            | Kind::Filter(_, _)
            | Kind::Range(_, _)
    )
}

pub(crate) fn is_word(kind: &Kind) -> bool
    ensures { result ≡ is_word kind.now }
{
    matches!(kind, Kind::Word(_, _, _))
}

pub(crate) fn is_open(kind: &Kind) -> bool
    ensures { result ≡ is_open kind.now }
{
    matches!(kind, Kind::Open(_))
}

pub(crate) fn is_close(kind: &Kind) -> bool
    ensures { result ≡ is_close kind.now }
{
    matches!(kind, Kind::Close)
}

pub(crate) fn is_mark(kind: &Kind) -> bool
    ensures { result ≡ is_mark kind.now }
{
    matches!(kind, Kind::Plus | Kind::Minus)
}

pub(crate) fn is_not(kind: &Kind) -> bool
    ensures { result ≡ is_not kind.now }
{
    matches!(kind, Kind::Not)
}

pub(crate) fn is_joining(kind: &Kind) -> bool
    ensures { result ≡ is_joining kind.now }
{
    matches!(kind, Kind::And | Kind::Or | Kind::Xor)
}

pub(crate) fn is_near(kind: &Kind) -> bool
    ensures { result ≡ is_near_sign kind.now }
{
    matches!(kind, Kind::Near(_))
}

pub(crate) fn is_adj(kind: &Kind) -> bool
    ensures { result ≡ is_adj_sign kind.now }
{
    matches!(kind, Kind::Adj(_))
}

/// An item, or a bracket that opens.
pub(crate) fn begins_unit(kind: &Kind) -> bool
    ensures { result ≡ begins_unit kind.now }
{
    is_item(kind) || is_open(kind)
}

/// An item, or a bracket that closes.
pub(crate) fn ends_unit(kind: &Kind) -> bool
    ensures { result ≡ ends_unit kind.now }
{
    is_item(kind) || is_close(kind)
}

/// How many leaves the token counts for.
pub(crate) fn leaves_by(kind: &Kind) -> usize
    ensures { result ≡ leaves_by kind.now }
{
    match kind {
        Kind::Joined(_, texts) => texts.as_slice().len(),
        Kind::Quote(_, texts) => texts.as_slice().len(),
        Kind::Word(_, _, _) | Kind::Wild(_, _) | Kind::Filter(_, _) | Kind::Range(_, _) => 1,
        _ => 0,
    }
}

pub(crate) fn is_word_first(behind: &[Token]) -> bool
    ensures { result ≡ first_is is_word (kinds_of behind.now) }
{
    match behind {
        [next, ..] => is_word(&next.kind),
        [] => false,
    }
}

pub(crate) fn is_unit_first(behind: &[Token]) -> bool
    ensures { result ≡ first_is begins_unit (kinds_of behind.now) }
{
    match behind {
        [next, ..] => begins_unit(&next.kind),
        [] => false,
    }
}

pub(crate) fn is_mark_first(behind: &[Token]) -> bool
    ensures { result ≡ first_is is_mark (kinds_of behind.now) }
{
    match behind {
        [next, ..] => is_mark(&next.kind),
        [] => false,
    }
}

pub(crate) fn is_not_first(behind: &[Token]) -> bool
    ensures { result ≡ first_is is_not (kinds_of behind.now) }
{
    match behind {
        [next, ..] => is_not(&next.kind),
        [] => false,
    }
}
