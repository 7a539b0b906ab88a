//! How a query is read from a JSON value.
ghost use Rattle.std.specs.Prelude.{◌≡◌, true, Some, None, Err, IfOk, IfSome, IfNone};
ghost use Rattle.std.specs.Option.{option_map, option_and_then};
ghost use Rattle.std.specs.List.{IsAmong};
ghost use Rattle.std.specs.BTreeMap.{values};
ghost use Rattle.serde_json.specs.Data.{array, no_members, member};
ghost use Rattle.serde_json.specs.View.{view, items_view, members_view};
ghost use Rattle.sk_json.specs.Values.{texts_of};
ghost use Rattle.sk_query.specs.Trees.{limit_of, query_view, queries_view};
ghost use Rattle.sk_query.specs.Fits.{is_window, is_factor, is_slot, fits_tree};
ghost use Rattle.sk_query_json.specs.Reading.{number_if, window_and_texts, limit_of_value, range_of, string_named, empty_named, filled_named, leaf_named, parts_named, read_tree, read_member, read_named, scaled, read_trees, tree_of};

use crate::TreeFault;
use serde_json::{Map, Value};
use sk_base::{Text, Texts};
use sk_json::texts_of;
use sk_query::{Bound, Form, Queries, Query, is_factor, is_slot, is_window};
use std::alloc::Global;

/// The query of a JSON value. `tree_of` in `specs/Reading.antt` says which it is.
pub fn from_json(alloc: Global, value: &Value) -> Result<Query, TreeFault>
    ensures ok { IfOk result (λ q. tree_of (view value.now) ≡ Some (query_view q)) }
    ensures fits { IfOk result (λ q. fits_tree (query_view q) ≡ true) }
    ensures shape { result ≡ Err TreeFault.Shape → tree_of (view value.now) ≡ None }
{
    let query = read_tree(alloc, value)?;
    if query.fits() {
        Ok(query)
    } else {
        drop(query);
        Err(TreeFault::Shape)
    }
}

/// The query of an object with exactly one member, whether or not it fits.
#[cycle(read_tree)]
fn read_tree(alloc: Global, value: &Value) -> Result<Query, TreeFault>
    ensures ok { IfOk result (λ q. read_tree (view value.now) ≡ Some (query_view q)) }
    ensures shape { result ≡ Err TreeFault.Shape → read_tree (view value.now) ≡ None }
{
    let Value::Object(members) = value else {
        return Err(TreeFault::Shape);
    };
    match only(members) {
        Some((name, inner)) => read_named(alloc, name, inner),
        None => Err(TreeFault::Shape),
    }
}

/// The one member of an object.
#[tactic(auto, using(crate::proofs::ReadingLemmas::many_members, crate::proofs::ReadingLemmas::one_member, crate::proofs::ReadingLemmas::first_inside))]
fn only(members: &Map<String, Value>) -> Option<(&str, &Value)>
    ensures one { IfSome result (λ p. members_view members.entry.now.entries ≡ member p.0.now (view p.1.now) no_members) }
    ensures none { IfNone result (read_member (members_view members.entry.now.entries) ≡ None) }
    ensures inside { IfSome result (λ p. IsAmong (values members.entry.now) p.1.now) }
{
    if members.len() != 1 {
        return None;
    }
    let (name, inner) = members.first_key_value()?;
    Some((name.as_str(), inner))
}

/// The query of a member.
#[cycle(read_tree)]
fn read_named(alloc: Global, name: &str, value: &Value) -> Result<Query, TreeFault>
    ensures ok { IfOk result (λ q. read_named (parts_named name.now) name.now (view value.now) ≡ Some (query_view q)) }
    ensures shape { result ≡ Err TreeFault.Shape → read_named (parts_named name.now) name.now (view value.now) ≡ None }
{
    match parts_named(name) {
        Some(form) => match value {
            Value::Array(items) => {
                let parts = read_trees(alloc, items)?;
                Ok(Query::joined(form, parts))
            }
            _ => Err(TreeFault::Shape),
        },
        None => match value {
            Value::String(text) => string_named(alloc, name, text.as_str()),
            Value::Array(items) => {
                if name == "scale" {
                    scaled(alloc, items)
                } else {
                    array_named(alloc, name, items)
                }
            }
            _ => Err(TreeFault::Shape),
        },
    }
}

/// The form with this name.
fn parts_named(name: &str) -> Option<Form>
    ensures { result ≡ parts_named name.now }
{
    match name {
        "and" => Some(Form::And),
        "or" => Some(Form::Or),
        "xor" => Some(Form::Xor),
        "max" => Some(Form::Max),
        "and_not" => Some(Form::AndNot),
        "and_maybe" => Some(Form::AndMaybe),
        "filter" => Some(Form::Filter),
        _ => None,
    }
}

/// A factor and a query.
#[cycle(read_tree)]
fn scaled(alloc: Global, items: &[Value]) -> Result<Query, TreeFault>
    ensures ok { IfOk result (λ q. scaled (items_view items.now) ≡ Some (query_view q)) }
    ensures shape { result ≡ Err TreeFault.Shape → scaled (items_view items.now) ≡ None }
{
    match items {
        [] => Err(TreeFault::Shape),
        [_] => Err(TreeFault::Shape),
        [factor, part] => {
            let Some(factor) = factor_of(factor) else {
                return Err(TreeFault::Shape);
            };
            let part = read_tree(alloc, part)?;
            let part = Box::new(alloc, part)?;
            Ok(Query::Scale(factor, part))
        }
        [_, _, _, ..] => Err(TreeFault::Shape),
    }
}

/// The queries of an array.
#[cycle(read_tree)]
fn read_trees(alloc: Global, items: &[Value]) -> Result<Queries, TreeFault>
    ensures ok { IfOk result (λ qs. read_trees (items_view items.now) ≡ Some (queries_view qs.items)) }
    ensures shape { result ≡ Err TreeFault.Shape → read_trees (items_view items.now) ≡ None }
{
    let mut made = Vec::new(alloc);
    'items: for item in items {
        made.push(read_tree(alloc, item)?)?;
    }
    Ok(made)
}

/// The query that a string makes.
fn string_named(alloc: Global, name: &str, text: &str) -> Result<Query, TreeFault>
    ensures ok { IfOk result (λ q. string_named name.now text.now ≡ Some (query_view q)) }
    ensures shape { result ≡ Err TreeFault.Shape → string_named name.now text.now ≡ None }
{
    match name {
        "term" => {
            let term = Text::new(alloc, text)?;
            Ok(Query::Term(term))
        }
        "wildcard" => {
            let prefix = Text::new(alloc, text)?;
            Ok(Query::Wildcard(prefix))
        }
        _ => Err(TreeFault::Shape),
    }
}

/// The query without a query inside that an array makes.
fn array_named(alloc: Global, name: &str, items: &[Value]) -> Result<Query, TreeFault>
    ensures ok { IfOk result (λ q. leaf_named name.now (array (items_view items.now)) ≡ Some (query_view q)) }
    ensures shape { result ≡ Err TreeFault.Shape → leaf_named name.now (array (items_view items.now)) ≡ None }
{
    match items {
        [] => empty_named(name),
        [_, ..] => filled_named(alloc, name, items),
    }
}

fn empty_named(name: &str) -> Result<Query, TreeFault>
    ensures ok { IfOk result (λ q. empty_named name.now ≡ Some (query_view q)) }
    ensures shape { result ≡ Err TreeFault.Shape → empty_named name.now ≡ None }
{
    match name {
        "nothing" => Ok(Query::Nothing),
        "all" => Ok(Query::All),
        _ => Err(TreeFault::Shape),
    }
}

fn filled_named(alloc: Global, name: &str, items: &[Value]) -> Result<Query, TreeFault>
    ensures ok { IfOk result (λ q. filled_named name.now (items_view items.now) ≡ Some (query_view q)) }
    ensures shape { result ≡ Err TreeFault.Shape → filled_named name.now (items_view items.now) ≡ None }
{
    match name {
        "near" => {
            let (window, texts) = windowed(alloc, items)?;
            Ok(Query::Near(window, texts))
        }
        "phrase" => {
            let (window, texts) = windowed(alloc, items)?;
            Ok(Query::Phrase(window, texts))
        }
        "synonym" => {
            let texts = texts_in(alloc, items)?;
            Ok(Query::Synonym(texts))
        }
        "range" => range_of(alloc, items),
        _ => Err(TreeFault::Shape),
    }
}

/// A window and strings.
fn windowed(alloc: Global, items: &[Value]) -> Result<(u32, Texts), TreeFault>
    ensures ok { IfOk result (λ p. window_and_texts (items_view items.now) ≡ Some p) }
    ensures shape { result ≡ Err TreeFault.Shape → window_and_texts (items_view items.now) ≡ None }
{
    match items {
        [] => Err(TreeFault::Shape),
        [window, rest @ ..] => {
            let Some(window) = window_of(window) else {
                return Err(TreeFault::Shape);
            };
            let texts = texts_in(alloc, rest)?;
            Ok((window, texts))
        }
    }
}

/// The strings of an array that holds nothing else.
fn texts_in(alloc: Global, items: &[Value]) -> Result<Texts, TreeFault>
    ensures ok { IfOk result (λ texts. texts_of (items_view items.now) ≡ Some texts) }
    ensures shape { result ≡ Err TreeFault.Shape → texts_of (items_view items.now) ≡ None }
{
    match texts_of(alloc, items)? {
        Some(texts) => Ok(texts),
        None => Err(TreeFault::Shape),
    }
}

/// A slot and two ends.
fn range_of(alloc: Global, items: &[Value]) -> Result<Query, TreeFault>
    ensures ok { IfOk result (λ q. range_of (items_view items.now) ≡ Some (query_view q)) }
    ensures shape { result ≡ Err TreeFault.Shape → range_of (items_view items.now) ≡ None }
{
    match items {
        [] => Err(TreeFault::Shape),
        [_] => Err(TreeFault::Shape),
        [_, _] => Err(TreeFault::Shape),
        [slot, lo, hi] => {
            let Some(slot) = slot_of(slot) else {
                return Err(TreeFault::Shape);
            };
            let lo = bound_of(alloc, lo)?;
            let hi = bound_of(alloc, hi)?;
            Ok(Query::Range(slot, lo, hi))
        }
        [_, _, _, _, ..] => Err(TreeFault::Shape),
    }
}

/// An end of a range.
fn bound_of(alloc: Global, value: &Value) -> Result<Bound, TreeFault>
    ensures ok { IfOk result (λ b. limit_of_value (view value.now) ≡ Some (limit_of b)) }
    ensures shape { result ≡ Err TreeFault.Shape → limit_of_value (view value.now) ≡ None }
{
    match value {
        Value::Null => Ok(Bound::Unbounded),
        Value::Number(number) => match number.as_u64() {
            Some(n) => Ok(Bound::Number(n)),
            None => Err(TreeFault::Shape),
        },
        Value::String(text) => {
            let text = Text::new(alloc, text.as_str())?;
            Ok(Bound::Text(text))
        }
        _ => Err(TreeFault::Shape),
    }
}

/// The window that a value is.
fn window_of(value: &Value) -> Option<u32>
    ensures { result ≡ number_if is_window (view value.now) }
{
    let n = value.as_u64()?;
    if is_window(n) { Some(n as u32) } else { None }
}

/// The factor that a value is.
fn factor_of(value: &Value) -> Option<u32>
    ensures { result ≡ number_if is_factor (view value.now) }
{
    let n = value.as_u64()?;
    if is_factor(n) { Some(n as u32) } else { None }
}

/// The slot that a value is.
fn slot_of(value: &Value) -> Option<u32>
    ensures { result ≡ number_if is_slot (view value.now) }
{
    let n = value.as_u64()?;
    if is_slot(n) { Some(n as u32) } else { None }
}
