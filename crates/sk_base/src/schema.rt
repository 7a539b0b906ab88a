//! The fields of a document.
ghost use Rattle.std.specs.Prelude.{◌≡◌, ◌≤◌, length, not, Some, None, IfOk, if◌then◌else◌};
ghost use Rattle.std.specs.List.{list_all};
ghost use Rattle.std.specs.Char.{is_ascii_uppercase};
ghost use Rattle.sk_base.specs.Names.{is_name, is_name_byte, is_prefix};
ghost use Rattle.sk_base.specs.Fields.{IsSchema, is_field, are_fields, are_apart, clash, place_of};

use crate::{Items, Term, Text};
use std::alloc::{AllocError, Global};
use std::marker::Model;

/// A field of a schema.
#[derive(Debug, Drop)]
pub struct Field {
    pub name: Text,
    pub kind: FieldKind,
}

/// What a field takes, and how it is indexed.
#[derive(Debug, Drop)]
pub enum FieldKind {
    /// Words, with the prefix of their terms and the step that each adds to its wdf.
    Text(Term, u32),
    /// Texts that are terms as they stand, with the prefix of these.
    Filter(Term),
    /// A number, in this slot.
    Number(u32),
    /// A text that is a value, in this slot.
    Word(u32),
}

/// Fields that were checked, and whether words are stemmed.
#[derive(Debug, Drop)]
pub struct Schema {
    fields: Items<Field>,
    stem: bool,
}

impl Model for Schema {
    ghost use Rattle.sk_base.specs.Fields.{Schema, IsSchema};

    ghost Value = { Schema };

    ghost view = { λ s. record { fields = s.fields; stem = s.stem } };

    ghost invariant = { λ s. IsSchema (record { fields = s.fields; stem = s.stem }) };
}

impl Schema {
    /// The schema of these fields, or none where a rule on fields is broken.
    pub fn check(fields: Vec<Field>, stem: bool) -> Option<Schema>
        requires some { 1 ≤ length fields.items }
        requires few { length fields.items ≤ 64 }
        ensures { result ≡ (if are_fields fields.items then Some (record { fields = fields.items; stem = stem }) else None) }
    {
        if are_fields(fields.as_slice()) {
            Some(Schema {
                fields: Items::from_vec(fields),
                stem,
            })
        } else {
            None
        }
    }

    pub fn fields(&self) -> &[Field]
        ensures value { result.now ≡ self.now.fields }
        ensures sound { IsSchema self.now }
    {
        self.fields.as_slice()
    }

    /// Whether the stems of words are indexed beside them, and asked for.
    pub fn stem(&self) -> bool
        ensures { result ≡ self.now.stem }
    {
        self.stem
    }

    /// The same schema once more.
    pub fn copy(&self, alloc: Global) -> Result<Schema, AllocError>
        ensures { IfOk result (λ copy. copy ≡ self.now) }
    {
        let mut fields = Vec::new(alloc);
        'fields: for field in self.fields.as_slice() {
            let copy = field.copy(alloc)?;
            fields.push(copy)?;
        }
        Ok(Schema {
            fields: Items::from_vec(fields),
            stem: self.stem,
        })
    }

    /// The place of the field with this name, from 0.
    pub fn find(&self, name: &str) -> Option<usize>
        ensures { result ≡ place_of name.now self.now.fields }
    {
        self.fields
            .as_slice()
            .iter()
            .position(|field| field.name.as_str() == name)
    }
}

impl Field {
    fn copy(&self, alloc: Global) -> Result<Field, AllocError>
        ensures { IfOk result (λ copy. copy ≡ self.now) }
    {
        let name = Text::new(alloc, self.name.as_str())?;
        let kind = self.kind.copy(alloc)?;
        Ok(Field { name, kind })
    }

    fn is_sound(&self) -> bool
        ensures { result ≡ is_field self.now }
    {
        is_name(self.name.as_str().as_bytes()) && self.kind.is_sound()
    }

    /// Whether the two can't stand in one schema.
    fn clashes(&self, other: &Field) -> bool
        ensures { result ≡ clash self.now other.now }
    {
        self.name.as_str() == other.name.as_str() || self.kind.clashes(&other.kind)
    }
}

impl FieldKind {
    ghost use Rattle.sk_base.specs.Fields.{is_kind, kinds_clash, kind_prefix, kind_slot};

    /// The prefix of its terms, empty where it has none.
    pub fn prefix(&self) -> &str
        ensures { result.now ≡ kind_prefix self.now }
    {
        match self {
            FieldKind::Text(prefix, _) => prefix.as_str(),
            FieldKind::Filter(prefix) => prefix.as_str(),
            FieldKind::Number(_) => "",
            FieldKind::Word(_) => "",
        }
    }

    /// The slot of its values, if it has any.
    pub fn slot(&self) -> Option<u32>
        ensures { result ≡ kind_slot self.now }
    {
        match self {
            FieldKind::Text(_, _) => None,
            FieldKind::Filter(_) => None,
            FieldKind::Number(slot) => Some(*slot),
            FieldKind::Word(slot) => Some(*slot),
        }
    }

    fn copy(&self, alloc: Global) -> Result<FieldKind, AllocError>
        ensures { IfOk result (λ copy. copy ≡ self.now) }
    {
        match self {
            FieldKind::Text(prefix, step) => {
                let prefix = Text::new(alloc, prefix.as_str())?;
                Ok(FieldKind::Text(prefix, *step))
            }
            FieldKind::Filter(prefix) => {
                let prefix = Text::new(alloc, prefix.as_str())?;
                Ok(FieldKind::Filter(prefix))
            }
            FieldKind::Number(slot) => Ok(FieldKind::Number(*slot)),
            FieldKind::Word(slot) => Ok(FieldKind::Word(*slot)),
        }
    }

    fn is_sound(&self) -> bool
        ensures { result ≡ is_kind self.now }
    {
        match self {
            FieldKind::Text(prefix, step) => {
                is_prefix(prefix.as_str().as_bytes()) && *step >= 1 && *step <= 256
            }
            FieldKind::Filter(prefix) => {
                !prefix.as_str().is_empty() && is_prefix(prefix.as_str().as_bytes())
            }
            FieldKind::Number(slot) => *slot <= 255,
            FieldKind::Word(slot) => *slot <= 255,
        }
    }

    fn clashes(&self, other: &FieldKind) -> bool
        ensures { result ≡ kinds_clash self.now other.now }
    {
        match (self, other) {
            (FieldKind::Text(prefix, _), FieldKind::Filter(other)) => {
                prefix.as_str() == other.as_str()
            }
            (FieldKind::Filter(prefix), FieldKind::Text(other, _)) => {
                prefix.as_str() == other.as_str()
            }
            (FieldKind::Filter(prefix), FieldKind::Filter(other)) => {
                prefix.as_str() == other.as_str()
            }
            (FieldKind::Number(slot), FieldKind::Number(other)) => slot == other,
            (FieldKind::Number(slot), FieldKind::Word(other)) => slot == other,
            (FieldKind::Word(slot), FieldKind::Number(other)) => slot == other,
            (FieldKind::Word(slot), FieldKind::Word(other)) => slot == other,
            _ => false,
        }
    }
}

fn is_name(name: &[u8]) -> bool
    ensures { result ≡ is_name name.now }
{
    match name {
        [] => false,
        [first, rest @ ..] => first.is_ascii_lowercase()
            && rest.len() <= 31
            && are_name_bytes(rest),
    }
}

fn are_name_bytes(bytes: &[u8]) -> bool
    ensures { result ≡ list_all is_name_byte bytes.now }
{
    bytes.iter().all(|b| b.is_ascii_lowercase() || b.is_ascii_digit() || *b == b'_')
}

fn is_prefix(prefix: &[u8]) -> bool
    ensures { result ≡ is_prefix prefix.now }
{
    match prefix {
        [] => true,
        [b'X', rest @ ..] => !rest.is_empty() && rest.len() <= 15 && are_capitals(rest),
        [letter] => letter.is_ascii_uppercase() && *letter != b'Z',
        _ => false,
    }
}

fn are_capitals(bytes: &[u8]) -> bool
    ensures { result ≡ list_all is_ascii_uppercase bytes.now }
{
    bytes.iter().all(|b| b.is_ascii_uppercase())
}

fn are_fields(fields: &[Field]) -> bool
    ensures { result ≡ are_fields fields.now }
{
    are_sound(fields) && are_apart(fields)
}

fn are_sound(fields: &[Field]) -> bool
    ensures { result ≡ list_all is_field fields.now }
{
    fields.iter().all(|field| field.is_sound())
}

fn are_apart(fields: &[Field]) -> bool
    ensures { result ≡ are_apart fields.now }
{
    match fields {
        [] => true,
        [first, rest @ ..] => clashes_with_none(first, rest) && are_apart(rest),
    }
}

fn clashes_with_none(field: &Field, others: &[Field]) -> bool
    ensures { result ≡ list_all (λ other. not (clash field.now other)) others.now }
{
    others.iter().all(|other| !field.clashes(other))
}
