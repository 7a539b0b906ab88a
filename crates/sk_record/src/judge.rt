//! What a row says under the fields of a schema, none where a rule on fields is broken.
ghost use Rattle.std.specs.Prelude.{◌≡◌, true, [], ◌++◌, IfOk, OnOk, option_map};
ghost use Rattle.serde_json.specs.View.{view};
ghost use Rattle.sk_base.specs.Fields.{are_fields};
ghost use Rattle.sk_base.specs.Finds.{ask_over, find_over};
ghost use Rattle.sk_base.specs.Commands.{command_over, flight_over};
ghost use Rattle.sk_record.specs.Shown.{pair_shown, given_shown, ask_shown, sorted_shown, collapsed_shown, wanted_shown, counted_shown, flight_shown, shape_shown};
ghost use Rattle.sk_record.specs.FieldRules.{field_named, filter_texts, told_value, member_value, with_entry, record_entries, record_of, prefix_named, filter_prefix, term_by_filter, slot_named, slot_and_kind, valued_named, facets_of, keyed, order_of, collapse_of, paging_of, find_of, replaced_by, flight_of, command_of};

use crate::row::{
    AskRow, CollapseRow, FacetRow, FindRow, FlightRow, OrderRow, RecordRow, Row, Sort, TextRow,
};
use crate::taken::{into_texts, take_member, text_of};
use serde_json::Value;
use sk_base::{
    Ask, Collapse, Command, Edit, Entries, Entry, FacetQuery, Field, FieldKind, FieldValue, Find,
    FlightCommand, Items, Order, OrderBy, Paging, Question, Record, SortKey, Term, Text, Texts,
    ValueKind, prefixed,
};
use sk_json::{has_only, whole_number};
use std::alloc::{AllocError, Global};

/// The command of a row.
pub fn command_of(
    alloc: Global,
    fields: &[Field],
    row: Row<'_>,
) -> Result<Option<Command<Value>>, AllocError>
    requires { are_fields fields.now ≡ true }
    ensures { IfOk result (λ c. option_map (command_over view) c ≡ command_of fields.now (shape_shown row.entry)) }
{
    match row {
        Row::Add(given) => match record_of(alloc, fields, given)? {
            Some(record) => Ok(Some(Command::Edit(Edit::Add(record)))),
            None => Ok(None),
        },
        Row::Replace(id, given) => match record_of(alloc, fields, given)? {
            Some(record) => Ok(Some(Command::Edit(Edit::Replace(id, record)))),
            None => Ok(None),
        },
        Row::ReplaceBy(pair, given) => match replaced_by(alloc, fields, pair, given)? {
            Some(edit) => Ok(Some(Command::Edit(edit))),
            None => Ok(None),
        },
        Row::Delete(id) => Ok(Some(Command::Edit(Edit::Delete(id)))),
        Row::DeleteBy(pair) => match term_of(alloc, fields, pair)? {
            Some(term) => Ok(Some(Command::Edit(Edit::DeleteBy(term)))),
            None => Ok(None),
        },
        Row::Find(wanted) => match find_of(alloc, fields, wanted)? {
            Some(find) => Ok(Some(Command::Ask(Question::Find(find)))),
            None => Ok(None),
        },
        Row::Show(text, join) => {
            let text = Text::new(alloc, text)?;
            Ok(Some(Command::Ask(Question::Show(text, join))))
        }
        Row::Facets(counted) => match facets_of(alloc, fields, counted)? {
            Some(facets) => Ok(Some(Command::Ask(Question::Facets(facets)))),
            None => Ok(None),
        },
        Row::Flight(asked) => match flight_of(alloc, fields, asked)? {
            Some(asked) => Ok(Some(Command::Flight(asked))),
            None => Ok(None),
        },
    }
}

fn replaced_by(
    alloc: Global,
    fields: &[Field],
    pair: TextRow<'_>,
    given: RecordRow,
) -> Result<Option<Edit>, AllocError>
    requires { are_fields fields.now ≡ true }
    ensures { IfOk result (λ e. e ≡ replaced_by fields.now (pair_shown pair.entry) (given_shown given)) }
{
    let Some(term) = term_of(alloc, fields, pair)? else {
        return Ok(None);
    };
    match record_of(alloc, fields, given)? {
        Some(record) => Ok(Some(Edit::ReplaceBy(term, record))),
        None => Ok(None),
    }
}

/// The field with this name.
fn field_named<'a>(fields: &'a [Field], name: &str) -> Option<&'a Field>
    ensures { option_map (λ f. f.now) result ≡ field_named fields.entry.now name.now }
{
    fields.iter().find(|field| field.name.as_str() == name)
}

/// The term of a text of the named filter.
fn term_of(alloc: Global, fields: &[Field], pair: TextRow<'_>) -> Result<Option<Term>, AllocError>
    ensures { IfOk result (λ t. t ≡ term_by_filter fields.now (pair_shown pair.entry)) }
{
    match prefix_named(fields, pair.field) {
        Some(prefix) => {
            let term = prefixed(alloc, prefix, pair.text)?;
            Ok(Some(term))
        }
        None => Ok(None),
    }
}

fn prefix_named<'a>(fields: &'a [Field], name: &str) -> Option<&'a str>
    ensures { option_map (λ s. s.now) result ≡ prefix_named fields.entry.now name.now }
{
    filter_prefix(&field_named(fields, name)?.kind)
}

fn filter_prefix(kind: &FieldKind) -> Option<&str>
    ensures { option_map (λ s. s.now) result ≡ filter_prefix kind.entry.now }
{
    match kind {
        FieldKind::Filter(prefix) => Some(prefix.as_str()),
        _ => None,
    }
}

fn slot_named(fields: &[Field], name: &str) -> Option<u32>
    ensures { result ≡ slot_named fields.now name.now }
{
    field_named(fields, name)?.kind.slot()
}

/// The find, with the slots of its fields.
fn find_of(
    alloc: Global,
    fields: &[Field],
    wanted: FindRow<'_>,
) -> Result<Option<Find<Value>>, AllocError>
    ensures { IfOk result (λ f. option_map (find_over view) f ≡ find_of fields.now (wanted_shown wanted.entry)) }
{
    let Some(paging) = paging_of(fields, wanted) else {
        return Ok(None);
    };
    let ask = ask_of(alloc, wanted.ask)?;
    Ok(Some(Find { ask, paging }))
}

fn paging_of(fields: &[Field], wanted: FindRow<'_>) -> Option<Paging>
    ensures { result ≡ paging_of fields.now (wanted_shown wanted.entry) }
{
    let by = order_of(fields, wanted.order)?;
    let collapse = collapse_of(fields, wanted.collapse)?;
    Some(Paging {
        options: wanted.options,
        order: Order {
            by,
            falling: wanted.falling,
        },
        collapse,
    })
}

fn ask_of(alloc: Global, ask: AskRow<'_>) -> Result<Ask<Value>, AllocError>
    ensures { IfOk result (λ a. ask_over view a ≡ ask_shown ask.entry) }
{
    match ask {
        AskRow::Text(text, join) => {
            let text = Text::new(alloc, text)?;
            Ok(Ask::Text(text, join))
        }
        AskRow::Tree(value) => {
            let value = value.clone()?;
            Ok(Ask::Tree(value))
        }
    }
}

fn order_of(fields: &[Field], order: OrderRow<'_>) -> Option<OrderBy>
    ensures { result ≡ order_of fields.now (sorted_shown order.entry) }
{
    match order {
        OrderRow::Relevance => Some(OrderBy::Relevance),
        OrderRow::By(sort, field, reverse) => {
            let slot = slot_named(fields, field)?;
            Some(keyed(sort, SortKey { slot, reverse }))
        }
    }
}

fn keyed(sort: Sort, key: SortKey) -> OrderBy
    ensures { result ≡ keyed sort key }
{
    match sort {
        Sort::Value => OrderBy::Value(key),
        Sort::ValueThenRelevance => OrderBy::ValueThenRelevance(key),
        Sort::RelevanceThenValue => OrderBy::RelevanceThenValue(key),
    }
}

fn collapse_of(fields: &[Field], collapse: Option<CollapseRow<'_>>) -> Option<Option<Collapse>>
    ensures { result ≡ collapse_of fields.now (option_map collapsed_shown collapse.entry) }
{
    match collapse {
        Some(row) => {
            let slot = slot_named(fields, row.field)?;
            Some(Some(Collapse { slot, max: row.max }))
        }
        None => Some(None),
    }
}

/// The facets of a field, with its slot.
fn facets_of(
    alloc: Global,
    fields: &[Field],
    counted: FacetRow<'_>,
) -> Result<Option<FacetQuery>, AllocError>
    ensures { IfOk result (λ f. f ≡ facets_of fields.now (counted_shown counted.entry)) }
{
    let Some((slot, kind)) = valued_named(fields, counted.field) else {
        return Ok(None);
    };
    let text = Text::new(alloc, counted.text)?;
    Ok(Some(FacetQuery {
        text,
        join: counted.join,
        slot,
        kind,
        size: counted.size,
    }))
}

/// What is asked of searches in flight.
fn flight_of(
    alloc: Global,
    fields: &[Field],
    asked: FlightRow<'_>,
) -> Result<Option<FlightCommand<Value>>, AllocError>
    ensures { IfOk result (λ c. option_map (flight_over view) c ≡ flight_of fields.now (flight_shown asked.entry)) }
{
    match asked {
        FlightRow::Open(wanted) => match find_of(alloc, fields, wanted)? {
            Some(find) => Ok(Some(FlightCommand::Open(find))),
            None => Ok(None),
        },
        FlightRow::Turn(number, times) => Ok(Some(FlightCommand::Turn(number, times))),
        FlightRow::Close(number) => Ok(Some(FlightCommand::Close(number))),
        FlightRow::Drop(number) => Ok(Some(FlightCommand::Drop(number))),
    }
}

/// The slot of the named number or word, and which of the two it is.
fn valued_named(fields: &[Field], name: &str) -> Option<(u32, ValueKind)>
    ensures { result ≡ valued_named fields.now name.now }
{
    slot_and_kind(&field_named(fields, name)?.kind)
}

fn slot_and_kind(kind: &FieldKind) -> Option<(u32, ValueKind)>
    ensures { result ≡ slot_and_kind kind.now }
{
    match kind {
        FieldKind::Text(_, _) => None,
        FieldKind::Filter(_) => None,
        FieldKind::Number(slot) => Some((*slot, ValueKind::Number)),
        FieldKind::Word(slot) => Some((*slot, ValueKind::Word)),
    }
}

/// The record of a values object and a payload.
fn record_of(
    alloc: Global,
    fields: &[Field],
    given: RecordRow,
) -> Result<Option<Record>, AllocError>
    requires { are_fields fields.now ≡ true }
    ensures { IfOk result (λ r. r ≡ record_of fields.now (given_shown given)) }
{
    let RecordRow { values, payload } = given;
    let Some(values) = entries_of(alloc, fields, values)? else {
        return Ok(None);
    };
    Ok(Some(Record { values, payload }))
}

/// The entries of a values object, in the order of the fields, whatever the order of the members. None where a member
/// names no field.
fn entries_of(
    alloc: Global,
    fields: &[Field],
    mut values: Value,
) -> Result<Option<Entries>, AllocError>
    requires { are_fields fields.now ≡ true }
    ensures { IfOk result (λ e. e ≡ record_entries fields.now (view values)) }
{
    let mut entries = Items::new(alloc);
    'fields: for place in 0..fields.len() {
        let field = &fields[place];
        let member = take_member(&mut values, field.name.as_str());
        let Some(value) = member_value(alloc, &field.kind, member)? else {
            return Ok(None);
        };
        push_entry(&mut entries, place, value)?;
    }
    // Each field's member was taken, so a member that is left names no field.
    if !has_only(&values, &[]) {
        return Ok(None);
    }
    Ok(Some(entries))
}

fn push_entry(
    entries: &mut Entries,
    place: usize,
    value: Option<FieldValue>,
) -> Result<(), AllocError>
    ensures { OnOk result (entries.new ≡ entries.old ++ with_entry place value []) }
{
    if let Some(value) = value {
        entries.push(Entry {
            field: place,
            value,
        })?;
    }
    Ok(())
}

/// What a member gives for a field: nothing where it is absent or null.
fn member_value(
    alloc: Global,
    kind: &FieldKind,
    member: Option<Value>,
) -> Result<Option<Option<FieldValue>>, AllocError>
    ensures { IfOk result (λ v. v ≡ member_value kind.now (option_map view member)) }
{
    let Some(value) = member else {
        return Ok(Some(None));
    };
    if value.is_null() {
        return Ok(Some(None));
    }
    match told_value(alloc, kind, value)? {
        Some(value) => Ok(Some(Some(value))),
        None => Ok(None),
    }
}

fn told_value(
    alloc: Global,
    kind: &FieldKind,
    value: Value,
) -> Result<Option<FieldValue>, AllocError>
    ensures { IfOk result (λ v. v ≡ told_value kind.now (view value)) }
{
    match kind {
        FieldKind::Text(_, _) => match text_of(value) {
            Some(text) => Ok(Some(FieldValue::Text(text))),
            None => Ok(None),
        },
        FieldKind::Filter(_) => match filter_texts(alloc, value)? {
            Some(texts) => Ok(Some(FieldValue::Filter(texts))),
            None => Ok(None),
        },
        FieldKind::Number(_) => match whole_number(&value) {
            Some(n) => Ok(Some(FieldValue::Number(n))),
            None => Ok(None),
        },
        FieldKind::Word(_) => match text_of(value) {
            Some(text) => Ok(Some(FieldValue::Word(text))),
            None => Ok(None),
        },
    }
}

/// One string, or an array of strings.
fn filter_texts(alloc: Global, value: Value) -> Result<Option<Texts>, AllocError>
    ensures { IfOk result (λ t. t ≡ filter_texts (view value)) }
{
    match value {
        Value::String(string) => {
            let mut texts = Items::new(alloc);
            texts.push(Text::from_string(string))?;
            Ok(Some(texts))
        }
        Value::Array(items) => into_texts(alloc, items),
        _ => Ok(None),
    }
}
