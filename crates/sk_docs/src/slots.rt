//! The values of a record, by slot.
ghost use Rattle.std.specs.Prelude.{◌≡◌, ◌<◌, true, nat_lt, position, fold, AllPairs, IfOk, OnOk};
ghost use Rattle.std.specs.Option.{option_copied};
ghost use Rattle.sk_base.specs.Fields.{are_apart};
ghost use Rattle.sk_model.specs.Documents.{given_value, slot_values_of, slot_values_from, with_value, values_of};

use crate::taking::taken;
use sk_base::{Bytes, Entry, Field, FieldKind, FieldValue, SlotValue, SlotValues, number_bytes};
use std::alloc::{AllocError, Global};

/// The values that the numbers and the words of a record give, by rising slot.
pub fn values(alloc: Global, fields: &[Field], given: &[Entry]) -> Result<SlotValues, AllocError>
    requires apart { are_apart fields.now ≡ true }
    requires rising { AllPairs (λ a b. a.field < b.field) given.now }
    ensures { IfOk result (λ values. values ≡ values_of (slot_values_from 0 fields.now given.now)) }
{
    let mut made = Vec::new(alloc);
    let mut left = given;
    'fields: for place in 0..fields.len() {
        let (value, behind) = taken(place, left);
        put_given(alloc, &mut made, &fields[place].kind, value)?;
        left = behind;
    }
    Ok(SlotValues::from_vec(made))
}

/// Puts the value that a field gives to its slot, if it does.
fn put_given(
    alloc: Global,
    made: &mut Vec<SlotValue>,
    kind: &FieldKind,
    value: Option<&FieldValue>,
) -> Result<(), AllocError>
    ensures { OnOk result (made.new.items ≡ fold with_value made.old.items (slot_values_of kind.now (option_copied value.entry))) }
{
    match (kind, value) {
        (FieldKind::Number(slot), Some(FieldValue::Number(n))) => {
            put_value(alloc, made, *slot, &number_bytes(*n))
        }
        (FieldKind::Word(slot), Some(FieldValue::Word(text))) => {
            put_value(alloc, made, *slot, text.as_str().as_bytes())
        }
        _ => Ok(()),
    }
}

/// Puts a value before those of higher slots, if it is not empty.
fn put_value(
    alloc: Global,
    made: &mut Vec<SlotValue>,
    slot: u32,
    value: &[u8],
) -> Result<(), AllocError>
    ensures { OnOk result (made.new.items ≡ fold with_value made.old.items (given_value slot value.now)) }
{
    if value.is_empty() {
        return Ok(());
    }
    let place = first_above(made.as_slice(), slot).unwrap_or(made.len());
    let value = Bytes::new(alloc, value)?;
    made.insert(place, SlotValue { slot, value })?;
    Ok(())
}

/// The place of the first value of a higher slot.
fn first_above(made: &[SlotValue], slot: u32) -> Option<usize>
    ensures { result ≡ position (λ one. nat_lt slot one.slot) made.now }
{
    made.iter().position(|one| slot < one.slot)
}
