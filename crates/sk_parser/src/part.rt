//! The tokens of a list as parts of a query.
ghost use Rattle.std.specs.Prelude.{◌≡◌, ◌<◌, ◌≤◌, ◌+◌, ◌-◌, ◌^◌, [], ◌∷◌, IfOk, map, true, false, length};
ghost use Rattle.std.specs.List.{slice_get};
ghost use Rattle.sk_base.specs.Terms.{prefixed};
ghost use Rattle.sk_query.specs.Trees.{term, wildcard, limit_of, query_view};
ghost use Rattle.sk_grammar.specs.Bounds.{halves, is_number, is_number_kind, are_numbers};
ghost use Rattle.sk_grammar.specs.Faults.{is_bad_range, takes_numbers};
ghost use Rattle.sk_grammar.specs.Parts.{chain, unit, chosen, prefix_of, prefix_in, side_by_side, limit_in, slot_of, range_in, all_prefixed, stem_asked, single_part, chain_tree};
ghost use Rattle.sk_parser.specs.Views.{part_view, kind_range};

use sk_base::{Field, FieldKind, Items, Schema, Text, prefixed};
use sk_faults::{halves, number};
use sk_grammar::Kind;
use sk_query::{Bound, Query};
use sk_stem::stem_term;
use std::alloc::{AllocError, Global};

/// A part of a list of tokens.
#[derive(Drop)]
pub(crate) enum Part {
    /// Words that NEAR or, where the order counts, ADJ holds together, with the greatest distance; or a word alone,
    /// with the term of its stem where that is asked for in its place.
    Chain(bool, u32, Option<Text>, Vec<Text>),
    /// Another unit that is no filter.
    Unit(Query),
    /// A filter or a range, with its field.
    Chosen(usize, Query),
    /// Brackets with nothing inside.
    Empty,
    /// NEAR or, where the order counts, ADJ, with its distance.
    Link(bool, u32),
    /// Another operator, or a mark.
    Operator(Kind),
}

/// The prefix of the field at this place.
pub(crate) fn prefix_of(fields: &[Field], place: usize) -> &str
    ensures { result.now ≡ prefix_of (slice_get fields.now place) }
{
    match fields.get(place) {
        Some(field) => field.kind.prefix(),
        None => "",
    }
}

/// The prefix under a token's own field, or else the one around it.
pub(crate) fn prefix_in<'a>(schema: &'a Schema, around: &'a str, field: Option<usize>) -> &'a str
    ensures { result.now ≡ prefix_in schema.now around.now field }
{
    match field {
        Some(place) => prefix_of(schema.fields(), place),
        None => around,
    }
}

/// The terms under a prefix.
fn all_prefixed(alloc: Global, prefix: &str, terms: &[Text]) -> Result<Vec<Text>, AllocError>
    ensures { IfOk result (λ made. made.items ≡ all_prefixed prefix.now terms.now) }
{
    let mut made = Vec::new(alloc);
    'terms: for term in terms {
        made.push(prefixed(alloc, prefix, term.as_str())?)?;
    }
    Ok(made)
}

/// The window of so many words at this distance. More of them than 32 bits count are out of memory.
fn window(distance: u32, words: usize) -> Result<u32, AllocError>
    requires some { 1 ≤ words }
    requires few { words < 2 ^ 63 }
    ensures { IfOk result (λ w. w ≡ distance + words - 1) }
{
    match u32::try_from(distance as usize + (words - 1)) {
        Ok(window) => Ok(window),
        Err(_) => Err(AllocError),
    }
}

/// Words that stand side by side.
fn side_by_side(terms: Vec<Text>) -> Result<Query, AllocError>
    ensures { IfOk result (λ q. query_view q ≡ side_by_side terms.items) }
{
    let mut terms = terms;
    if terms.len() > 1 {
        let width = window(1, terms.len())?;
        return Ok(Query::Phrase(width, Items::from_vec(terms)));
    }
    match terms.pop() {
        Some(term) => Ok(Query::Term(term)),
        None => Ok(Query::Nothing),
    }
}

/// The query of a chain.
pub(crate) fn chain_tree(
    ordered: bool,
    distance: u32,
    stem: Option<Text>,
    words: Vec<Text>,
) -> Result<Query, AllocError>
    ensures { IfOk result (λ q. query_view q ≡ chain_tree ordered distance stem words.items) }
{
    let mut words = words;
    if words.len() > 1 {
        let width = window(distance, words.len())?;
        let texts = Items::from_vec(words);
        return Ok(if ordered {
            Query::Phrase(width, texts)
        } else {
            Query::Near(width, texts)
        });
    }
    match words.pop() {
        Some(word) => Ok(Query::Term(stem.unwrap_or(word))),
        None => Ok(Query::Nothing),
    }
}

fn is_number_kind(kind: &FieldKind) -> bool
    ensures { result ≡ is_number_kind kind.now }
{
    matches!(kind, FieldKind::Number(_))
}

/// A bound of a field of this kind.
fn limit_in(alloc: Global, kind: &FieldKind, text: &str) -> Result<Bound, AllocError>
    requires { is_number_kind kind.now ≡ true → is_number text.now ≡ true }
    ensures { IfOk result (λ bound. limit_of bound ≡ limit_in kind.now text.now) }
{
    if text.is_empty() {
        return Ok(Bound::Unbounded);
    }
    if is_number_kind(kind) {
        Ok(Bound::Number(number(text)))
    } else {
        Ok(Bound::Text(Text::new(alloc, text)?))
    }
}

fn slot_of(kind: &FieldKind) -> u32
    ensures { result ≡ slot_of kind.now }
{
    kind.slot().unwrap_or(0)
}

/// The range that a text says of a field.
fn kind_range(alloc: Global, kind: &FieldKind, text: &str) -> Result<Query, AllocError>
    requires { is_number_kind kind.now ≡ true → are_numbers (halves text.now) ≡ true }
    ensures { IfOk result (λ q. query_view q ≡ kind_range kind.now text.now) }
{
    let (from, to) = halves(text);
    let lower = limit_in(alloc, kind, from)?;
    let upper = limit_in(alloc, kind, to)?;
    Ok(Query::Range(slot_of(kind), lower, upper))
}

/// The part that a token is, which is no bracket, where the brackets around it give this prefix.
pub(crate) fn part_of(
    alloc: Global,
    schema: &Schema,
    around: &str,
    kind: &Kind,
) -> Result<Part, AllocError>
    requires { is_bad_range schema.now kind.now ≡ false }
    ensures { IfOk result (λ p. part_view p ≡ single_part schema.now around.now kind.now) }
{
    match kind {
        Kind::Word(field, term, capital) => word_part(
            alloc,
            schema.stem(),
            *capital,
            prefix_in(schema, around, *field),
            term.as_str(),
        ),
        Kind::Wild(field, term) => {
            wild_part(alloc, prefix_in(schema, around, *field), term.as_str())
        }
        Kind::Joined(field, terms) => {
            words_part(alloc, prefix_in(schema, around, *field), terms.as_slice())
        }
        Kind::Quote(field, terms) => {
            words_part(alloc, prefix_in(schema, around, *field), terms.as_slice())
        }
        Kind::Filter(field, text) => filter_part(alloc, schema.fields(), *field, text.as_str()),
        Kind::Range(field, text) => range_part(alloc, schema.fields(), *field, text.as_str()),
        Kind::Near(n) => Ok(Part::Link(false, *n)),
        Kind::Adj(n) => Ok(Part::Link(true, *n)),
        Kind::Open(field) => Ok(Part::Operator(Kind::Open(*field))),
        Kind::Close => Ok(Part::Operator(Kind::Close)),
        Kind::Plus => Ok(Part::Operator(Kind::Plus)),
        Kind::Minus => Ok(Part::Operator(Kind::Minus)),
        Kind::And => Ok(Part::Operator(Kind::And)),
        Kind::Or => Ok(Part::Operator(Kind::Or)),
        Kind::Xor => Ok(Part::Operator(Kind::Xor)),
        Kind::Not => Ok(Part::Operator(Kind::Not)),
    }
}

/// The words that begin so.
fn wild_part(alloc: Global, prefix: &str, term: &str) -> Result<Part, AllocError>
    ensures { IfOk result (λ p. part_view p ≡ unit (wildcard (prefixed prefix.now term.now))) }
{
    let term = prefixed(alloc, prefix, term)?;
    Ok(Part::Unit(Query::Wildcard(term)))
}

/// A text of the filter at this place.
fn filter_part(
    alloc: Global,
    fields: &[Field],
    place: usize,
    text: &str,
) -> Result<Part, AllocError>
    ensures { IfOk result (λ p. part_view p ≡ chosen place (term (prefixed (prefix_of (slice_get fields.now place)) text.now))) }
{
    let term = prefixed(alloc, prefix_of(fields, place), text)?;
    Ok(Part::Chosen(place, Query::Term(term)))
}

/// A range of the field at this place.
fn range_part(alloc: Global, fields: &[Field], place: usize, text: &str) -> Result<Part, AllocError>
    requires { takes_numbers (slice_get fields.now place) ≡ true → are_numbers (halves text.now) ≡ true }
    ensures { IfOk result (λ p. part_view p ≡ chosen place (range_in (slice_get fields.now place) text.now)) }
{
    let range = range_in(alloc, fields, place, text)?;
    Ok(Part::Chosen(place, range))
}

/// The range of the field at this place.
fn range_in(alloc: Global, fields: &[Field], place: usize, text: &str) -> Result<Query, AllocError>
    requires { takes_numbers (slice_get fields.now place) ≡ true → are_numbers (halves text.now) ≡ true }
    ensures { IfOk result (λ q. query_view q ≡ range_in (slice_get fields.now place) text.now) }
{
    match fields.get(place) {
        Some(field) => kind_range(alloc, &field.kind, text),
        None => Ok(Query::Nothing),
    }
}

/// A word alone.
fn word_part(
    alloc: Global,
    stems: bool,
    capital: bool,
    prefix: &str,
    term: &str,
) -> Result<Part, AllocError>
    ensures { IfOk result (λ p. part_view p ≡ chain false 0 (stem_asked stems capital prefix.now term.now) (prefixed prefix.now term.now ∷ [])) }
{
    let mut words = Vec::new(alloc);
    words.push(prefixed(alloc, prefix, term)?)?;
    let stem = stem_asked(alloc, stems, capital, prefix, term)?;
    Ok(Part::Chain(false, 0, stem, words))
}

/// The term of the stem of a word, where the schema asks for stems and no capital letter begins the word.
fn stem_asked(
    alloc: Global,
    stems: bool,
    capital: bool,
    prefix: &str,
    term: &str,
) -> Result<Option<Text>, AllocError>
    ensures { IfOk result (λ stem. stem ≡ stem_asked stems capital prefix.now term.now) }
{
    if stems && !capital {
        Ok(Some(stem_term(alloc, prefix, term)?))
    } else {
        Ok(None)
    }
}

/// Words that stand side by side.
fn words_part(alloc: Global, prefix: &str, terms: &[Text]) -> Result<Part, AllocError>
    ensures { IfOk result (λ p. part_view p ≡ unit (side_by_side (all_prefixed prefix.now terms.now))) }
{
    let terms = all_prefixed(alloc, prefix, terms)?;
    Ok(Part::Unit(side_by_side(terms)?))
}
