//! What stands before a token.
ghost use Rattle.std.specs.Prelude.{◌≡◌, ◌<◌, ◌+◌, ◌^◌, [], ◌∷◌, List};
ghost use Rattle.sk_grammar.specs.declared.token.Kind.{Kind};
ghost use Rattle.sk_grammar.specs.Faults.{depth_behind, leaves_by};
ghost use Rattle.sk_faults.specs.Before.{Is};

use crate::kinds::{ends_unit, is_adj, is_near, is_word, leaves_by};
use sk_grammar::Kind;

/// What the faults of a token need to know of the tokens before it.
#[derive(Clone, Copy, Debug)]
pub(crate) struct Before {
    /// How many brackets are open.
    pub depth: usize,
    pub leaves: usize,
    /// Whether the token right before ends a unit, or is a word, NEAR or ADJ.
    pub unit: bool,
    pub word: bool,
    pub near: bool,
    pub adj: bool,
    /// Whether the one before that is NEAR or ADJ.
    pub second_near: bool,
    pub second_adj: bool,
}

impl Before {
    /// No token.
    pub(crate) fn nothing() -> Before
        ensures { Is result [] }
    {
        Before {
            depth: 0,
            leaves: 0,
            unit: false,
            word: false,
            near: false,
            adj: false,
            second_near: false,
            second_adj: false,
        }
    }

    /// One token more.
    pub(crate) fn with(self, kind: &Kind) -> Before
        requires depth { self.depth + 1 < 2 ^ 64 }
        requires leaves { self.leaves + leaves_by kind.now < 2 ^ 64 }
        ensures kept { (before : List Kind) → Is self before → Is result (kind.now ∷ before) }
        ensures depth { result.depth ≡ depth_behind self.depth kind.now }
        ensures leaves { result.leaves ≡ leaves_by kind.now + self.leaves }
    {
        Before {
            depth: depth_behind(self.depth, kind),
            leaves: leaves_by(kind) + self.leaves,
            unit: ends_unit(kind),
            word: is_word(kind),
            near: is_near(kind),
            adj: is_adj(kind),
            second_near: self.near,
            second_adj: self.adj,
        }
    }
}

/// How many brackets are open behind a token.
fn depth_behind(depth: usize, kind: &Kind) -> usize
    requires { depth + 1 < 2 ^ 64 }
    ensures { result ≡ depth_behind depth kind.now }
{
    match kind {
        Kind::Open(_) => depth + 1,
        Kind::Close => depth.saturating_sub(1),
        _ => depth,
    }
}
