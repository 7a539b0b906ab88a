//! Gathers the terms of a record, field by field.
ghost use Rattle.std.specs.Prelude.{◌≡◌, ◌<◌, ◌≤◌, ◌+◌, ◌*◌, true, [], ◌∷◌, ◌++◌, length, map, filter, AllPairs, IfOk, OnOk};
ghost use Rattle.std.specs.Option.{option_copied};
ghost use Rattle.std.specs.List.{list_all};
ghost use Rattle.sk_base.specs.Fields.{is_field, is_kind};
ghost use Rattle.sk_base.specs.Records.{bytes_of_values, most_bytes};
ghost use Rattle.sk_model.specs.Documents.{occurrences_in, occurrences_of, text_fields, occurrences_from, filter_term, filter_terms_of, filter_terms_from, mentions, terms_of};
ghost use Rattle.sk_base.specs.Terms.{is_given};
ghost use Rattle.sk_docs.specs.Gathered.{CanGather, after, occurrences_among, bytes_of_given};
ghost use Rattle.sk_docs.specs.Joined.{AreMentions};
ghost use Rattle.sk_base.specs.Loads.{AreLight};

use crate::mentions::Mentions;
use crate::taking::taken;
use sk_base::{DocTerms, Entry, Field, FieldKind, FieldValue, MOST_TERM, Schema, Text, prefixed};
use sk_text::{Word, words};
use std::alloc::{AllocError, Global};

/// The terms that the texts and the filters of a record give.
pub fn terms(alloc: Global, schema: &Schema, values: &[Entry]) -> Result<DocTerms, AllocError>
    requires rising { AllPairs (λ a b. a.field < b.field) values.now }
    requires small { bytes_of_values values.now ≤ most_bytes }
    ensures value { IfOk result (λ terms. terms ≡ terms_of (mentions schema.now values.now)) }
    ensures light { IfOk result (λ terms. AreLight terms) }
{
    let fields = schema.fields();
    let mut gathered = Mentions::new(alloc, schema.stem());
    note_texts(alloc, &mut gathered, fields, values)?;
    note_filters(alloc, &mut gathered, fields, values)?;
    gathered.into_terms(alloc)
}

/// Notes the words of all texts, in the order of the schema.
fn note_texts(
    alloc: Global,
    gathered: &mut Mentions,
    fields: &[Field],
    values: &[Entry],
) -> Result<(), AllocError>
    requires sound { list_all is_field fields.now ≡ true }
    requires few { length fields.now ≤ 64 }
    requires rising { AllPairs (λ a b. a.field < b.field) values.now }
    requires small { bytes_of_values values.now ≤ most_bytes }
    requires room { CanGather gathered.old 0 (bytes_of_values values.now + 1) }
    ensures value { OnOk result (gathered.new ≡ after gathered.old (occurrences_from 0 0 fields.now values.now)) }
    ensures all { OnOk result (AreMentions gathered.new.mentions) }
{
    let mut before = 0;
    let mut left = values;
    'fields: for place in 0..fields.len() {
        let kind = &fields[place].kind;
        let (value, behind) = taken(place, left);
        note_value(alloc, gathered, kind, before, value)?;
        let own = text_fields(kind);
        before += own;
        left = behind;
    }
    Ok(())
}

/// How many text fields this is: one or none.
fn text_fields(kind: &FieldKind) -> u32
    ensures { result ≡ text_fields kind.now }
{
    match kind {
        FieldKind::Text(_, _) => 1,
        _ => 0,
    }
}

/// Notes the words of a value, where it is a text.
fn note_value(
    alloc: Global,
    gathered: &mut Mentions,
    kind: &FieldKind,
    before: u32,
    value: Option<&FieldValue>,
) -> Result<(), AllocError>
    requires sound { is_kind kind.now ≡ true }
    requires small { bytes_of_given (option_copied value) ≤ most_bytes }
    requires room { CanGather gathered.old before (bytes_of_given (option_copied value) + 1) }
    ensures value { OnOk result (gathered.new ≡ after gathered.old (occurrences_of kind.now before (option_copied value.entry))) }
    ensures count { OnOk result (2 * gathered.new.next ≤ 2 * gathered.old.next + bytes_of_given (option_copied value.entry) + text_fields kind.now) }
{
    match (kind, value) {
        (FieldKind::Text(prefix, step), Some(FieldValue::Text(text))) => {
            note_text(
                alloc,
                gathered,
                prefix.as_str(),
                *step,
                before,
                text.as_str(),
            )
        }
        _ => Ok(()),
    }
}

/// Notes the words of a text.
fn note_text(
    alloc: Global,
    gathered: &mut Mentions,
    prefix: &str,
    step: u32,
    before: u32,
    text: &str,
) -> Result<(), AllocError>
    requires step { step ≤ 256 }
    requires small { length text.now ≤ most_bytes }
    requires room { CanGather gathered.old before (length text.now + 1) }
    ensures value { OnOk result (gathered.new ≡ after gathered.old (occurrences_in prefix.now step before text.now)) }
    ensures count { OnOk result (2 * gathered.new.next ≤ 2 * gathered.old.next + length text.now + 1) }
{
    let found = words(alloc, text)?;
    'words: for word in found.into_vec() {
        note_word(alloc, gathered, prefix, step, before, word)?;
    }
    Ok(())
}

/// Notes a word, if it is indexed: the limit is on its own term.
fn note_word(
    alloc: Global,
    gathered: &mut Mentions,
    prefix: &str,
    step: u32,
    before: u32,
    word: Word,
) -> Result<(), AllocError>
    requires room { CanGather gathered.old before 2 }
    ensures { OnOk result (gathered.new ≡ after gathered.old (occurrences_among prefix.now step before (word ∷ []))) }
{
    let text = word.term.into_string();
    if text.len() > MOST_TERM {
        return Ok(());
    }
    gathered.note_word(alloc, prefix, text, step, before)
}

/// Notes the texts of all filters, in the order of the schema.
fn note_filters(
    alloc: Global,
    gathered: &mut Mentions,
    fields: &[Field],
    values: &[Entry],
) -> Result<(), AllocError>
    requires rising { AllPairs (λ a b. a.field < b.field) values.now }
    ensures { OnOk result (gathered.new.mentions ≡ gathered.old.mentions ++ filter_terms_from 0 fields.now values.now) }
{
    let mut left = values;
    'fields: for place in 0..fields.len() {
        let (value, behind) = taken(place, left);
        note_filter(alloc, gathered, &fields[place].kind, value)?;
        left = behind;
    }
    Ok(())
}

/// Notes the texts of a value, where it is that of a filter.
fn note_filter(
    alloc: Global,
    gathered: &mut Mentions,
    kind: &FieldKind,
    value: Option<&FieldValue>,
) -> Result<(), AllocError>
    ensures { OnOk result (gathered.new.mentions ≡ gathered.old.mentions ++ filter_terms_of kind.now (option_copied value.entry)) }
{
    match (kind, value) {
        (FieldKind::Filter(prefix), Some(FieldValue::Filter(texts))) => {
            note_filter_texts(alloc, gathered, prefix.as_str(), texts.as_slice())
        }
        _ => Ok(()),
    }
}

/// Notes those of the texts that are not empty.
fn note_filter_texts(
    alloc: Global,
    gathered: &mut Mentions,
    prefix: &str,
    texts: &[Text],
) -> Result<(), AllocError>
    ensures { OnOk result (gathered.new.mentions ≡ gathered.old.mentions ++ map (filter_term prefix.now) (filter is_given texts.now)) }
{
    'texts: for text in texts {
        note_filter_text(alloc, gathered, prefix, text.as_str())?;
    }
    Ok(())
}

/// Notes a text of a filter, if it is not empty.
fn note_filter_text(
    alloc: Global,
    gathered: &mut Mentions,
    prefix: &str,
    text: &str,
) -> Result<(), AllocError>
    ensures { OnOk result (gathered.new.mentions ≡ gathered.old.mentions ++ map (filter_term prefix.now) (filter is_given (text.now ∷ []))) }
{
    if text.is_empty() {
        return Ok(());
    }
    let term = prefixed(alloc, prefix, text)?;
    gathered.note_filter(term)
}
