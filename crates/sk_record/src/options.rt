//! The rows of finds: their query and their options.
ghost use Rattle.std.specs.Prelude.{◌≡◌, option_map};
ghost use Rattle.serde_json.specs.View.{view, members_view};
ghost use Rattle.sk_record.specs.Alone.{is_only, is_alone, plain_find};
ghost use Rattle.sk_record.specs.Options.{query_at, join_named, join_at, cutoff_at, falling_named, falling_at, scheme_named, scheme_at, page_at, check_at, relevance_at, by_field_at, sorted_named, sorted_at, not_collapsed, collapsed_on, collapsed_at, options_at, wanted_at, find_row, tree_row};
ghost use Rattle.sk_record.specs.Shown.{ask_shown, sorted_shown, collapsed_shown, wanted_shown};

use crate::row::{AskRow, CollapseRow, FindRow, OrderRow, Sort};
use serde_json::{Map, Value};
use sk_base::{Join, MOST_HITS, MOST_TEXT, Options, Scheme, Weight, default_options};
use sk_json::{between, has, has_only, optional_flag, optional_number, text_at};

/// Whether the line is an object with this member and no other.
pub fn is_alone(line: &Value, name: &str) -> bool
    ensures { result ≡ is_alone name.now (view line.now) }
{
    match line {
        Value::Object(members) => is_only(members, name),
        _ => false,
    }
}

fn is_only(members: &Map<String, Value>, name: &str) -> bool
    ensures { result ≡ is_only name.now (members_view members.now.entries) }
{
    if members.len() != 1 {
        return false;
    }
    match members.first_key_value() {
        Some((only, _)) => only.as_str() == name,
        None => false,
    }
}

/// A find by the text at a member, of which nothing else is said.
pub fn plain_find<'a>(line: &'a Value, name: &str) -> Option<FindRow<'a>>
    ensures { option_map wanted_shown result ≡ option_map plain_find (query_at name.now (view line.entry.now)) }
{
    let text = query_at(line, name)?;
    Some(FindRow {
        ask: AskRow::Text(text, Join::Or),
        options: default_options(),
        order: OrderRow::Relevance,
        falling: false,
        collapse: None,
    })
}

/// A find by the text at a member.
pub fn find_row<'a>(line: &'a Value, name: &str) -> Option<FindRow<'a>>
    ensures { option_map wanted_shown result ≡ find_row name.now (view line.entry.now) }
{
    let names = [
        name, "op", "scheme", "first", "size", "check", "order", "by", "reverse", "collapse",
        "max", "cutoff", "ids",
    ];
    if !has_only(line, &names) {
        return None;
    }
    let text = query_at(line, name)?;
    let join = join_at(line)?;
    wanted_at(line, AskRow::Text(text, join))
}

/// A find by tree.
pub fn tree_row(line: &Value) -> Option<FindRow<'_>>
    ensures { option_map wanted_shown result ≡ tree_row (view line.entry.now) }
{
    let names = [
        "tree", "scheme", "first", "size", "check", "order", "by", "reverse", "collapse", "max",
        "cutoff", "ids",
    ];
    if !has_only(line, &names) {
        return None;
    }
    let tree = line.get("tree")?;
    wanted_at(line, AskRow::Tree(tree))
}

/// The query text at a member.
pub fn query_at<'a>(line: &'a Value, name: &str) -> Option<&'a str>
    ensures { option_map (λ s. s.now) result ≡ query_at name.now (view line.entry.now) }
{
    let text = text_at(line, name)?;
    if text.len() > MOST_TEXT {
        return None;
    }
    Some(text)
}

/// How the words of a text are joined: by or where nothing is said.
pub fn join_at(line: &Value) -> Option<Join>
    ensures { result ≡ join_at (view line.now) }
{
    match line.get("op") {
        Some(value) => join_named(value.as_str()?),
        None => Some(Join::Or),
    }
}

fn join_named(name: &str) -> Option<Join>
    ensures { result ≡ join_named name.now }
{
    match name {
        "or" => Some(Join::Or),
        "and" => Some(Join::And),
        _ => None,
    }
}

fn wanted_at<'a>(line: &'a Value, ask: AskRow<'a>) -> Option<FindRow<'a>>
    ensures { option_map wanted_shown result ≡ wanted_at (view line.entry.now) (ask_shown ask.entry) }
{
    let options = options_at(line)?;
    let order = sorted_at(line)?;
    let falling = falling_at(line)?;
    let collapse = collapsed_at(line)?;
    Some(FindRow {
        ask,
        options,
        order,
        falling,
        collapse,
    })
}

/// The options that name no field.
fn options_at(line: &Value) -> Option<Options>
    ensures { result ≡ options_at (view line.now) }
{
    let scheme = scheme_at(line)?;
    let (first, size) = page_at(line)?;
    let check = check_at(line)?;
    let cutoff = cutoff_at(line)?;
    Some(Options {
        scheme,
        first,
        size,
        check,
        cutoff,
    })
}

fn scheme_at(line: &Value) -> Option<Scheme>
    ensures { result ≡ scheme_at (view line.now) }
{
    match line.get("scheme") {
        Some(value) => scheme_named(value.as_str()?),
        None => Some(default_options().scheme),
    }
}

fn scheme_named(name: &str) -> Option<Scheme>
    ensures { result ≡ scheme_named name.now }
{
    match name {
        "bool" => Some(Scheme::Bool),
        "coord" => Some(Scheme::Coord),
        "nnn" => Some(Scheme::Nnn),
        "bnn" => Some(Scheme::Bnn),
        "snn" => Some(Scheme::Snn),
        _ => None,
    }
}

/// The first rank and the size of the page.
fn page_at(line: &Value) -> Option<(u32, u32)>
    ensures { result ≡ page_at (view line.now) }
{
    let default = default_options();
    let first = optional_number(line, "first", u64::from(default.first))?;
    let size = optional_number(line, "size", u64::from(default.size))?;
    let most = u64::from(MOST_HITS);
    if first > most || size > most - first {
        return None;
    }
    Some((first as u32, size as u32))
}

fn check_at(line: &Value) -> Option<u32>
    ensures { result ≡ check_at (view line.now) }
{
    let default = u64::from(default_options().check);
    between(0, u32::MAX, optional_number(line, "check", default)?)
}

fn cutoff_at(line: &Value) -> Option<Weight>
    ensures { result ≡ cutoff_at (view line.now) }
{
    let default = default_options().cutoff as u64;
    let cutoff = optional_number(line, "cutoff", default)?;
    Some(Weight::from(cutoff))
}

/// Whether of equal matches those with greater ids come first.
fn falling_at(line: &Value) -> Option<bool>
    ensures { result ≡ falling_at (view line.now) }
{
    match line.get("ids") {
        Some(value) => falling_named(value.as_str()?),
        None => Some(false),
    }
}

fn falling_named(name: &str) -> Option<bool>
    ensures { result ≡ falling_named name.now }
{
    match name {
        "rising" => Some(false),
        "falling" => Some(true),
        _ => None,
    }
}

fn sorted_at(line: &Value) -> Option<OrderRow<'_>>
    ensures { option_map sorted_shown result ≡ sorted_at (view line.entry.now) }
{
    match line.get("order") {
        Some(value) => sorted_named(line, value.as_str()?),
        None => relevance_at(line),
    }
}

fn sorted_named<'a>(line: &'a Value, name: &str) -> Option<OrderRow<'a>>
    ensures { option_map sorted_shown result ≡ sorted_named (view line.entry.now) name.now }
{
    match name {
        "relevance" => relevance_at(line),
        "value" => by_field_at(line, Sort::Value),
        "value_relevance" => by_field_at(line, Sort::ValueThenRelevance),
        "relevance_value" => by_field_at(line, Sort::RelevanceThenValue),
        _ => None,
    }
}

/// By relevance, with neither a field nor a direction.
fn relevance_at(line: &Value) -> Option<OrderRow<'_>>
    ensures { option_map sorted_shown result ≡ relevance_at (view line.entry.now) }
{
    if has(line, "by") || has(line, "reverse") {
        return None;
    }
    Some(OrderRow::Relevance)
}

/// By a field, which must be there.
fn by_field_at(line: &Value, sort: Sort) -> Option<OrderRow<'_>>
    ensures { option_map sorted_shown result ≡ by_field_at sort (view line.entry.now) }
{
    let field = text_at(line, "by")?;
    let reverse = optional_flag(line, "reverse")?;
    Some(OrderRow::By(sort, field, reverse))
}

fn collapsed_at(line: &Value) -> Option<Option<CollapseRow<'_>>>
    ensures { option_map (option_map collapsed_shown) result ≡ collapsed_at (view line.entry.now) }
{
    match line.get("collapse") {
        Some(value) => collapsed_on(line, value.as_str()?),
        None => not_collapsed(line),
    }
}

/// No collapsing, and then no number either.
fn not_collapsed(line: &Value) -> Option<Option<CollapseRow<'_>>>
    ensures { option_map (option_map collapsed_shown) result ≡ not_collapsed (view line.entry.now) }
{
    if has(line, "max") {
        return None;
    }
    Some(None)
}

fn collapsed_on<'a>(line: &Value, field: &'a str) -> Option<Option<CollapseRow<'a>>>
    ensures { option_map (option_map collapsed_shown) result ≡ collapsed_on (view line.now) field.entry.now }
{
    let max = between(1, MOST_HITS, optional_number(line, "max", 1)?)?;
    Some(Some(CollapseRow { field, max }))
}
