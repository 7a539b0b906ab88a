//! The schema of a schema line.
ghost use Rattle.std.specs.Prelude.{◌≡◌, ◌≤◌, ◌&&◌, nat_le, length, IfOk, IfSome, option_map};
ghost use Rattle.std.specs.Option.{option_and_then};
ghost use Rattle.serde_json.specs.View.{view, items_view};
ghost use Rattle.serde_json.specs.Find.{get, as_array};
ghost use Rattle.sk_base.specs.Commands.{FitsParts};
ghost use Rattle.sk_base.specs.declared.schema.FieldKind.TheVariants as FieldKind;
ghost use Rattle.sk_record.specs.SchemaFields.{capped, text_kind, filter_kind, slot_at, kind_named, kind_of, field_of, fields_of, some_fields, fields_at, parts_at, schema_row};

use serde_json::Value;
use sk_base::{Field, FieldKind, MOST_FIELDS, MOST_PARTS, Text};
use sk_json::{
    between, has_only, optional_flag, optional_number, optional_text, text_at, whole_number,
};
use std::alloc::{AllocError, Global};

/// The fields of a schema line, whether it asks for stems, and for how many parts.
#[derive(Drop)]
pub struct SchemaRow {
    pub fields: Vec<Field>,
    pub stem: bool,
    pub parts: u32,
}

/// What a schema line gives, none where it has not the shape of one.
pub fn schema_row(alloc: Global, line: &Value) -> Result<Option<SchemaRow>, AllocError>
    ensures value { IfOk result (λ r. option_map (λ row. (record { fields = row.fields.items; stem = row.stem }, row.parts)) r ≡ schema_row (view line.now)) }
    ensures count { IfOk result (λ r. IfSome r (λ row. (1 ≤ length row.fields.items) × (length row.fields.items ≤ 64))) }
    ensures parts { IfOk result (λ r. IfSome r (λ row. FitsParts row.parts)) }
{
    if !has_only(line, &["schema", "stem", "parts"]) {
        return Ok(None);
    }
    let Some(stem) = optional_flag(line, "stem") else {
        return Ok(None);
    };
    let Some(parts) = parts_at(line) else {
        return Ok(None);
    };
    match fields_at(alloc, line)? {
        Some(fields) => Ok(Some(SchemaRow {
            fields,
            stem,
            parts,
        })),
        None => Ok(None),
    }
}

/// In how many parts the documents stand, none where the line says it wrongly.
fn parts_at(line: &Value) -> Option<u32>
    ensures value { result ≡ parts_at (view line.now) }
    ensures few { IfSome result FitsParts }
{
    between(1, MOST_PARTS, optional_number(line, "parts", 1)?)
}

fn fields_at(alloc: Global, line: &Value) -> Result<Option<Vec<Field>>, AllocError>
    ensures value { IfOk result (λ r. option_map (λ fields. fields.items) r ≡ fields_at (view line.now)) }
    ensures count { IfOk result (λ r. IfSome r (λ fields. (1 ≤ length fields.items) × (length fields.items ≤ 64))) }
{
    match items_at(line, "schema") {
        Some(items) => some_fields(alloc, items),
        None => Ok(None),
    }
}

fn items_at<'a>(line: &'a Value, name: &str) -> Option<&'a [Value]>
    ensures { option_map (λ items. items_view items.now) result ≡ option_and_then as_array (get name.now (view line.entry.now)) }
{
    let items = line.get(name)?.as_array()?;
    Some(items.as_slice())
}

/// The fields of 1 to 64 field objects.
fn some_fields(alloc: Global, items: &[Value]) -> Result<Option<Vec<Field>>, AllocError>
    ensures value { IfOk result (λ r. option_map (λ fields. fields.items) r ≡ some_fields (items_view items.now)) }
    ensures count { IfOk result (λ r. IfSome r (λ fields. (1 ≤ length fields.items) × (length fields.items ≤ 64))) }
{
    if !are_few(items) {
        return Ok(None);
    }
    let fields = fields_of(alloc, items)?;
    Ok(fields)
}

fn are_few(items: &[Value]) -> bool
    ensures { result ≡ (nat_le 1 (length items.now) && nat_le (length items.now) 64) }
{
    !items.is_empty() && items.len() <= MOST_FIELDS
}

fn fields_of(alloc: Global, items: &[Value]) -> Result<Option<Vec<Field>>, AllocError>
    ensures value { IfOk result (λ r. option_map (λ fields. fields.items) r ≡ fields_of (items_view items.now)) }
    ensures count { IfOk result (λ r. IfSome r (λ fields. length fields.items ≡ length items.now)) }
{
    let mut fields = Vec::new(alloc);
    'items: for item in items {
        let Some(field) = field_of(alloc, item)? else {
            return Ok(None);
        };
        fields.push(field)?;
    }
    Ok(Some(fields))
}

fn field_of(alloc: Global, value: &Value) -> Result<Option<Field>, AllocError>
    ensures { IfOk result (λ f. f ≡ field_of (view value.now)) }
{
    let Some(name) = text_at(value, "name") else {
        return Ok(None);
    };
    let Some(kind) = kind_of(alloc, value)? else {
        return Ok(None);
    };
    let name = Text::new(alloc, name)?;
    Ok(Some(Field { name, kind }))
}

fn kind_of(alloc: Global, value: &Value) -> Result<Option<FieldKind>, AllocError>
    ensures { IfOk result (λ k. k ≡ kind_of (view value.now)) }
{
    match text_at(value, "kind") {
        Some(name) => kind_named(alloc, name, value),
        None => Ok(None),
    }
}

fn kind_named(alloc: Global, name: &str, value: &Value) -> Result<Option<FieldKind>, AllocError>
    ensures { IfOk result (λ k. k ≡ kind_named name.now (view value.now)) }
{
    match name {
        "text" => text_kind(alloc, value),
        "filter" => filter_kind(alloc, value),
        "number" => Ok(number_kind(value)),
        "word" => Ok(word_kind(value)),
        _ => Ok(None),
    }
}

fn text_kind(alloc: Global, value: &Value) -> Result<Option<FieldKind>, AllocError>
    ensures { IfOk result (λ k. k ≡ text_kind (view value.now)) }
{
    if !has_only(value, &["name", "kind", "prefix", "step"]) {
        return Ok(None);
    }
    let Some(prefix) = optional_text(value, "prefix") else {
        return Ok(None);
    };
    let Some(step) = optional_number(value, "step", 1) else {
        return Ok(None);
    };
    let prefix = Text::new(alloc, prefix)?;
    Ok(Some(FieldKind::Text(prefix, capped(step))))
}

fn filter_kind(alloc: Global, value: &Value) -> Result<Option<FieldKind>, AllocError>
    ensures { IfOk result (λ k. k ≡ filter_kind (view value.now)) }
{
    if !has_only(value, &["name", "kind", "prefix"]) {
        return Ok(None);
    }
    let Some(prefix) = text_at(value, "prefix") else {
        return Ok(None);
    };
    let prefix = Text::new(alloc, prefix)?;
    Ok(Some(FieldKind::Filter(prefix)))
}

fn number_kind(value: &Value) -> Option<FieldKind>
    ensures { result ≡ option_map (λ slot. FieldKind.Number slot) (slot_at (view value.now)) }
{
    let slot = slot_at(value)?;
    Some(FieldKind::Number(slot))
}

fn word_kind(value: &Value) -> Option<FieldKind>
    ensures { result ≡ option_map (λ slot. FieldKind.Word slot) (slot_at (view value.now)) }
{
    let slot = slot_at(value)?;
    Some(FieldKind::Word(slot))
}

fn slot_at(value: &Value) -> Option<u32>
    ensures { result ≡ slot_at (view value.now) }
{
    if !has_only(value, &["name", "kind", "slot"]) {
        return None;
    }
    let slot = whole_number(value.get("slot")?)?;
    Some(capped(slot))
}

/// The number in 32 bits. A greater one is out of range, and so is the greatest of 32 bits.
fn capped(n: u64) -> u32
    ensures { result ≡ capped n }
{
    if n > u32::MAX as u64 {
        u32::MAX
    } else {
        n as u32
    }
}
