//! The JSON value of a query.
ghost use Rattle.std.specs.Prelude.{◌≡◌, ◌++◌, true, Some, IfOk, map, codes};
ghost use Rattle.serde_json.specs.Data.{string, number, array, no_items, item, unsigned};
ghost use Rattle.serde_json.specs.View.{view, items_view};
ghost use Rattle.sk_query.specs.Trees.{limit_of, query_view, queries_view, name_of, synonym, range};
ghost use Rattle.sk_query.specs.Fits.{fits_tree};
ghost use Rattle.sk_query_json.specs.Reading.{tree_of};
ghost use Rattle.sk_query_json.specs.Writing.{named, windowed, json_of_limit, json_of, json_of_all};

use serde_json::{Map, Value};
use sk_base::Text;
use sk_query::{Bound, Form, Query};
use std::alloc::{AllocError, Global};

/// The JSON value of a query: an object with one member, by its form.
pub fn to_json(alloc: Global, query: &Query) -> Result<Value, AllocError>
    ensures value { IfOk result (λ value. view value ≡ json_of (query_view query.now)) }
    ensures reads_back { fits_tree (query_view query.now) ≡ true → IfOk result (λ value. tree_of (view value) ≡ Some (query_view query.now)) }
{
    json_of(alloc, query)
}

#[cycle(json_of)]
fn json_of(alloc: Global, query: &Query) -> Result<Value, AllocError>
    ensures { IfOk result (λ value. view value ≡ json_of (query_view query.now)) }
{
    match query {
        Query::Nothing => array_named(alloc, "nothing", Vec::new(alloc)),
        Query::All => array_named(alloc, "all", Vec::new(alloc)),
        Query::Term(term) => text_named(alloc, "term", term),
        Query::Wildcard(prefix) => text_named(alloc, "wildcard", prefix),
        Query::And(parts) => parts_named(alloc, Form::And, parts),
        Query::Or(parts) => parts_named(alloc, Form::Or, parts),
        Query::Xor(parts) => parts_named(alloc, Form::Xor, parts),
        Query::Max(parts) => parts_named(alloc, Form::Max, parts),
        Query::AndNot(parts) => parts_named(alloc, Form::AndNot, parts),
        Query::AndMaybe(parts) => parts_named(alloc, Form::AndMaybe, parts),
        Query::Filter(parts) => parts_named(alloc, Form::Filter, parts),
        Query::Near(window, texts) => windowed(alloc, "near", *window, texts.as_slice()),
        Query::Phrase(window, texts) => windowed(alloc, "phrase", *window, texts.as_slice()),
        Query::Synonym(texts) => synonym(alloc, texts.as_slice()),
        Query::Scale(factor, part) => scaled(alloc, *factor, json_of(alloc, part)?),
        Query::Range(slot, lo, hi) => range(alloc, *slot, lo, hi),
    }
}

/// The values of the parts of a form, in order.
#[cycle(json_of)]
fn parts_named(alloc: Global, form: Form, parts: &[Query]) -> Result<Value, AllocError>
    ensures { IfOk result (λ value. view value ≡ named (name_of form) (array (json_of_all (queries_view parts.now)))) }
{
    let mut made = Vec::new(alloc);
    'parts: for part in parts {
        made.push(json_of(alloc, part)?)?;
    }
    array_named(alloc, form.name(), made)
}

/// A factor, and the value of a part.
fn scaled(alloc: Global, factor: u32, part: Value) -> Result<Value, AllocError>
    ensures { IfOk result (λ value. view value ≡ named (codes "scale") (array (item (number (unsigned factor)) (item (view part) no_items)))) }
{
    let mut items = Vec::new(alloc);
    items.push(Value::from(factor))?;
    items.push(part)?;
    array_named(alloc, "scale", items)
}

/// A slot and two ends.
fn range(alloc: Global, slot: u32, lo: &Bound, hi: &Bound) -> Result<Value, AllocError>
    ensures { IfOk result (λ value. view value ≡ json_of (range slot (limit_of lo.now) (limit_of hi.now))) }
{
    let mut items = Vec::new(alloc);
    items.push(Value::from(slot))?;
    items.push(json_of_bound(alloc, lo)?)?;
    items.push(json_of_bound(alloc, hi)?)?;
    array_named(alloc, "range", items)
}

fn synonym(alloc: Global, texts: &[Text]) -> Result<Value, AllocError>
    ensures { IfOk result (λ value. view value ≡ json_of (synonym texts.now)) }
{
    let strings = with_strings(alloc, Vec::new(alloc), texts)?;
    array_named(alloc, "synonym", strings)
}

/// A window, and behind it the texts.
fn windowed(alloc: Global, name: &str, window: u32, texts: &[Text]) -> Result<Value, AllocError>
    ensures { IfOk result (λ value. view value ≡ named name.now (array (windowed window texts.now))) }
{
    let mut items = Vec::new(alloc);
    items.push(Value::from(window))?;
    let items = with_strings(alloc, items, texts)?;
    array_named(alloc, name, items)
}

/// The items, and behind them the texts.
fn with_strings(alloc: Global, items: Vec<Value>, texts: &[Text]) -> Result<Vec<Value>, AllocError>
    ensures { IfOk result (λ made. map view made.items ≡ map view items.items ++ map string texts.now) }
{
    let mut made = items;
    'texts: for text in texts {
        made.push(string(alloc, text)?)?;
    }
    Ok(made)
}

/// An end of a range.
fn json_of_bound(alloc: Global, bound: &Bound) -> Result<Value, AllocError>
    ensures { IfOk result (λ value. view value ≡ json_of_limit (limit_of bound.now)) }
{
    match bound {
        Bound::Unbounded => Ok(Value::Null),
        Bound::Number(number) => Ok(Value::from(*number)),
        Bound::Text(text) => string(alloc, text),
    }
}

fn string(alloc: Global, text: &Text) -> Result<Value, AllocError>
    ensures { IfOk result (λ value. view value ≡ string text.now) }
{
    let string = String::from_str(alloc, text.as_str())?;
    Ok(Value::String(string))
}

/// An object of one member, a text.
fn text_named(alloc: Global, name: &str, text: &Text) -> Result<Value, AllocError>
    ensures { IfOk result (λ value. view value ≡ named name.now (string text.now)) }
{
    let value = string(alloc, text)?;
    named(alloc, name, value)
}

/// An object of one member, an array.
fn array_named(alloc: Global, name: &str, items: Vec<Value>) -> Result<Value, AllocError>
    ensures { IfOk result (λ value. view value ≡ named name.now (array (items_view items.items))) }
{
    named(alloc, name, Value::Array(items))
}

/// An object of one member.
fn named(alloc: Global, name: &str, value: Value) -> Result<Value, AllocError>
    ensures { IfOk result (λ object. view object ≡ named name.now (view value)) }
{
    let name = String::from_str(alloc, name)?;
    let mut members = Map::new(alloc);
    members.insert(name, value)?;
    Ok(Value::Object(members))
}
