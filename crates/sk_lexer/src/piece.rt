//! A piece of a text.
ghost use Rattle.std.specs.Prelude.{◌≡◌};
ghost use Rattle.sk_grammar.specs.Pieces.{token_piece, separator};
ghost use Rattle.sk_lexer.specs.Shown.{shown};

use sk_grammar::Kind;

/// A token, or none where the piece separates, and how many characters it has.
#[derive(Debug, Drop)]
pub(crate) struct Cut {
    pub kind: Option<Kind>,
    pub size: usize,
}

impl Cut {
    pub(crate) fn token(kind: Kind, size: usize) -> Cut
        ensures { shown result ≡ token_piece kind size }
    {
        Cut {
            kind: Some(kind),
            size,
        }
    }

    pub(crate) fn separator(size: usize) -> Cut
        ensures { shown result ≡ separator size }
    {
        Cut { kind: None, size }
    }
}
