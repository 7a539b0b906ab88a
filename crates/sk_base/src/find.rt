//! What a find asks for.
ghost use Rattle.std.specs.Prelude.{◌≡◌};
ghost use Rattle.sk_base.specs.Finds.{default_options, default_paging};

use crate::{Order, OrderBy, Text, Weight};

/// Which words of a text a document must have.
#[derive(Clone, Copy, Debug, PartialEq, Eq)]
pub enum Join {
    Or,
    And,
}

/// How a term's wdf weighs: not at all, as one, as it is, as one where there is one, or by its square.
#[derive(Clone, Copy, Debug, PartialEq, Eq)]
pub enum Scheme {
    Bool,
    Coord,
    Nnn,
    Bnn,
    Snn,
}

/// Of the documents that have the same value in a slot, only the best are kept.
#[derive(Clone, Copy, Debug, PartialEq, Eq)]
pub struct Collapse {
    pub slot: u32,
    /// How many of them are kept.
    pub max: u32,
}

/// The options of a find that name no field.
#[derive(Clone, Copy, Debug, PartialEq, Eq)]
pub struct Options {
    pub scheme: Scheme,
    /// The rank of the first hit, from 0.
    pub first: u32,
    /// How many hits at the most.
    pub size: u32,
    /// How many matches are counted at the least.
    pub check: u32,
    /// The least weight of a match: what weighs less does not match.
    pub cutoff: Weight,
}

/// Which page of the matches is asked for.
#[derive(Clone, Copy, Debug, PartialEq, Eq)]
pub struct Paging {
    pub options: Options,
    pub order: Order,
    pub collapse: Option<Collapse>,
}

/// The query of a find, as it was given, with trees of the type `T`.
#[derive(Debug, Drop)]
pub enum Ask<T> {
    /// A query text, and how its words are joined.
    Text(Text, Join),
    /// A query tree.
    Tree(T),
}

/// A find: its query, and which page of its matches is asked for.
#[derive(Debug, Drop)]
pub struct Find<T> {
    pub ask: Ask<T>,
    pub paging: Paging,
}

/// The options of a find that says nothing of them.
pub fn default_options() -> Options
    ensures { result ≡ default_options }
{
    Options {
        scheme: Scheme::Nnn,
        first: 0,
        size: 10,
        check: 0,
        cutoff: 0,
    }
}

/// The page of a find that says nothing of it.
pub fn default_paging() -> Paging
    ensures { result ≡ default_paging }
{
    Paging {
        options: default_options(),
        order: Order {
            by: OrderBy::Relevance,
            falling: false,
        },
        collapse: None,
    }
}
