//! Which row a line fits.
ghost use Rattle.std.specs.Prelude.{◌≡◌, OnSome, option_map, codes};
ghost use Rattle.serde_json.specs.View.{view};
ghost use Rattle.sk_json.specs.Values.{optional_text};
ghost use Rattle.sk_record.specs.Rows.{values_object, given_at, id_member, pair_at, add_row, replace_row, replace_by_row, delete_row, delete_by_row, show_row, told_at, facets_row, number_at, times_at, open_row, turn_row, close_row, drop_row, later_shape};
ghost use Rattle.sk_record.specs.Shapes.{seek, facets, flight};
ghost use Rattle.sk_record.specs.Shown.{pair_shown, given_shown, wanted_shown, counted_shown, flight_shown, shape_shown};
ghost use Rattle.sk_record.specs.Taken.{without_member};

use crate::options::{find_row, is_alone, join_at, plain_find, query_at, tree_row};
use crate::row::{FacetRow, FindRow, FlightRow, RecordRow, Row, TextRow};
use crate::taken::{take_member, text_of};
use serde_json::Value;
use sk_base::{MOST_HITS, MOST_TEXT, Text, default_options};
use sk_json::{
    between, has, has_only, is_within, optional_number, text_at, two_texts, whole_number,
};
use std::alloc::Global;

/// How many turns a line asks for at most.
const MOST_TURNS: u32 = 100_000;

/// The row of a line that is no schema, by its first member. What a record is given is taken out of the line.
pub fn later_row(alloc: Global, line: &mut Value) -> Option<Row<'_>>
    ensures { option_map shape_shown result ≡ later_shape (view line.old) }
{
    if is_alone(line, "find") {
        // Most finds say nothing else, so no other member is sought.
        let find = plain_find(line, "find")?;
        Some(Row::Find(find))
    } else if has(line, "add") {
        add_row(alloc, line)
    } else if has(line, "replace") {
        replace_row(alloc, line)
    } else if has(line, "replace_by") {
        replace_by_row(alloc, line)
    } else if has(line, "delete") {
        delete_row(line)
    } else if has(line, "delete_by") {
        delete_by_row(line)
    } else if has(line, "find") {
        found(find_row(line, "find"))
    } else if has(line, "tree") {
        found(tree_row(line))
    } else if has(line, "show") {
        show_row(line)
    } else if has(line, "facets") {
        counted(facets_row(line))
    } else if has(line, "open") {
        asked(open_row(line))
    } else if has(line, "turn") {
        asked(turn_row(line))
    } else if has(line, "close") {
        asked(close_row(line))
    } else if has(line, "drop") {
        asked(drop_row(line))
    } else {
        None
    }
}

fn found(row: Option<FindRow<'_>>) -> Option<Row<'_>>
    ensures { option_map shape_shown result ≡ option_map seek (option_map wanted_shown row.entry) }
{
    Some(Row::Find(row?))
}

fn counted(row: Option<FacetRow<'_>>) -> Option<Row<'_>>
    ensures { option_map shape_shown result ≡ option_map facets (option_map counted_shown row.entry) }
{
    Some(Row::Facets(row?))
}

fn asked(row: Option<FlightRow<'_>>) -> Option<Row<'_>>
    ensures { option_map shape_shown result ≡ option_map flight (option_map flight_shown row.entry) }
{
    Some(Row::Flight(row?))
}

fn add_row(alloc: Global, line: &mut Value) -> Option<Row<'_>>
    ensures { option_map shape_shown result ≡ add_row (view line.old) }
{
    if !has_only(line, &["add", "data"]) {
        return None;
    }
    let given = given_at(alloc, line, "add")?;
    Some(Row::Add(given))
}

fn replace_row(alloc: Global, line: &mut Value) -> Option<Row<'_>>
    ensures { option_map shape_shown result ≡ replace_row (view line.old) }
{
    if !has_only(line, &["replace", "with", "data"]) {
        return None;
    }
    let id = id_at(line, "replace")?;
    let given = given_at(alloc, line, "with")?;
    Some(Row::Replace(id, given))
}

fn replace_by_row(alloc: Global, line: &mut Value) -> Option<Row<'_>>
    ensures { option_map shape_shown result ≡ replace_by_row (view line.old) }
{
    if !has_only(line, &["replace_by", "with", "data"]) {
        return None;
    }
    let given = given_at(alloc, line, "with")?;
    // The pair is borrowed from what is left of the line.
    let pair = pair_at(line, "replace_by")?;
    Some(Row::ReplaceBy(pair, given))
}

fn delete_row(line: &Value) -> Option<Row<'_>>
    ensures { option_map shape_shown result ≡ delete_row (view line.entry.now) }
{
    if !has_only(line, &["delete"]) {
        return None;
    }
    let id = id_at(line, "delete")?;
    Some(Row::Delete(id))
}

fn delete_by_row(line: &Value) -> Option<Row<'_>>
    ensures { option_map shape_shown result ≡ delete_by_row (view line.entry.now) }
{
    if !has_only(line, &["delete_by"]) {
        return None;
    }
    let pair = pair_at(line, "delete_by")?;
    Some(Row::DeleteBy(pair))
}

fn show_row(line: &Value) -> Option<Row<'_>>
    ensures { option_map shape_shown result ≡ show_row (view line.entry.now) }
{
    if !has_only(line, &["show", "op"]) {
        return None;
    }
    let text = query_at(line, "show")?;
    let join = join_at(line)?;
    Some(Row::Show(text, join))
}

fn facets_row(line: &Value) -> Option<FacetRow<'_>>
    ensures { option_map counted_shown result ≡ facets_row (view line.entry.now) }
{
    if !has_only(line, &["facets", "op", "by", "size"]) {
        return None;
    }
    let text = query_at(line, "facets")?;
    let join = join_at(line)?;
    let field = text_at(line, "by")?;
    let size = told_at(line)?;
    Some(FacetRow {
        text,
        join,
        field,
        size,
    })
}

/// How many values are told at the most.
fn told_at(line: &Value) -> Option<u32>
    ensures { result ≡ told_at (view line.now) }
{
    let default = u64::from(default_options().size);
    between(0, MOST_HITS, optional_number(line, "size", default)?)
}

fn open_row(line: &Value) -> Option<FlightRow<'_>>
    ensures { option_map flight_shown result ≡ open_row (view line.entry.now) }
{
    let find = find_row(line, "open")?;
    Some(FlightRow::Open(find))
}

fn turn_row(line: &Value) -> Option<FlightRow<'_>>
    ensures { option_map flight_shown result ≡ turn_row (view line.entry.now) }
{
    if !has_only(line, &["turn", "times"]) {
        return None;
    }
    let number = number_at(line, "turn")?;
    let times = times_at(line)?;
    Some(FlightRow::Turn(number, times))
}

fn close_row(line: &Value) -> Option<FlightRow<'_>>
    ensures { option_map flight_shown result ≡ close_row (view line.entry.now) }
{
    if !has_only(line, &["close"]) {
        return None;
    }
    let number = number_at(line, "close")?;
    Some(FlightRow::Close(number))
}

fn drop_row(line: &Value) -> Option<FlightRow<'_>>
    ensures { option_map flight_shown result ≡ drop_row (view line.entry.now) }
{
    if !has_only(line, &["drop"]) {
        return None;
    }
    let number = number_at(line, "drop")?;
    Some(FlightRow::Drop(number))
}

/// The number of a search.
fn number_at(line: &Value, name: &str) -> Option<u64>
    ensures { result ≡ number_at name.now (view line.now) }
{
    whole_number(line.get(name)?)
}

/// How many turns a search is given.
fn times_at(line: &Value) -> Option<u32>
    ensures { result ≡ times_at (view line.now) }
{
    between(1, MOST_TURNS, optional_number(line, "times", 1)?)
}

/// The values object at a member, and the payload. Both are taken out of the line.
fn given_at(alloc: Global, line: &mut Value, name: &str) -> Option<RecordRow>
    ensures given { option_map given_shown result ≡ given_at name.now (view line.old) }
    ensures left { OnSome result (view line.new ≡ without_member name.now (without_member (codes "data") (view line.old))) }
{
    let payload = payload_at(alloc, line)?;
    let values = values_of(take_member(line, name)?)?;
    Some(RecordRow { values, payload })
}

/// The payload, which is empty where nothing is said.
fn payload_at(alloc: Global, line: &mut Value) -> Option<Text>
    ensures text { result ≡ optional_text (codes "data") (view line.old) }
    ensures left { view line.new ≡ without_member (codes "data") (view line.old) }
{
    match take_member(line, "data") {
        Some(value) => text_of(value),
        None => Some(Text::empty(alloc)),
    }
}

/// An object whose strings are not too long in all.
fn values_of(value: Value) -> Option<Value>
    ensures { option_map view result ≡ values_object (view value) }
{
    if !value.is_object() || !is_within(&value, MOST_TEXT) {
        return None;
    }
    Some(value)
}

fn id_at(line: &Value, name: &str) -> Option<u32>
    ensures { result ≡ id_member name.now (view line.now) }
{
    between(1, u32::MAX, whole_number(line.get(name)?)?)
}

fn pair_at<'a>(line: &'a Value, name: &str) -> Option<TextRow<'a>>
    ensures { option_map pair_shown result ≡ pair_at name.now (view line.entry.now) }
{
    let (field, text) = two_texts(line.get(name)?)?;
    Some(TextRow { field, text })
}
