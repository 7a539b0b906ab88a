//! The tokens of a query text.
use sk_base::{Items, Text, Texts};

/// A token, and where it stands.
#[derive(Debug, Drop)]
pub struct Token {
    pub kind: Kind,
    /// The byte of the text at which the token begins; that of a field's is the first of the field's name.
    pub from: usize,
    /// The byte before which it ends.
    pub to: usize,
}

/// The tokens of a text, in order.
pub type Tokens = Items<Token>;

/// What a token is. A field is its place in the schema. The texts of words are folded, and have no prefix.
#[derive(Debug, Drop)]
pub enum Kind {
    /// A word, and whether a capital letter begins it as it is written.
    Word(Option<usize>, Text, bool),
    /// A word with a star behind it: all words that begin so.
    Wild(Option<usize>, Text),
    /// Words that joiners hold together, as in `me@example.org`.
    Joined(Option<usize>, Texts),
    /// The words between quotes.
    Quote(Option<usize>, Texts),
    /// A text of a filter, as it is written.
    Filter(usize, Text),
    /// Bounds on a number or a word, as they are written.
    Range(usize, Text),
    /// A bracket that opens, and the field that holds inside.
    Open(Option<usize>),
    Close,
    Plus,
    Minus,
    And,
    Or,
    Xor,
    Not,
    /// The words on both sides stand near each other, in any order.
    Near(u32),
    /// They stand near each other in this order.
    Adj(u32),
}

/// What a mark before a unit says of it.
#[derive(Clone, Copy, Debug, PartialEq, Eq)]
pub enum Mark {
    /// It may match.
    Plain,
    /// It has to match.
    Loved,
    /// It must not match.
    Hated,
}
