//! The strings in a value.
ghost use Rattle.std.specs.Prelude.{◌≡◌, ◌+◌, IfOk, nat_le, option_map};
ghost use Rattle.serde_json.specs.View.{view, items_view, members_view};
ghost use Rattle.sk_json.specs.Values.{texts_of, two_texts, pair_of, bytes_in, bytes_in_items, bytes_in_members};
ghost use Rattle.sk_base.specs.Rooms.{room_behind};

use serde_json::{Map, Value};
use sk_base::{Items, Text, Texts};
use std::alloc::{AllocError, Global};

/// The strings that the items are, and none where one of them is something else.
pub fn texts_of(alloc: Global, items: &[Value]) -> Result<Option<Texts>, AllocError>
    ensures { IfOk result (λ texts. texts ≡ texts_of (items_view items.now)) }
{
    let mut texts = Items::new(alloc);
    'items: for item in items {
        let Some(text) = item.as_str() else {
            return Ok(None);
        };
        let text = Text::new(alloc, text)?;
        texts.push(text)?;
    }
    Ok(Some(texts))
}

/// The two texts of an array of two.
pub fn two_texts(value: &Value) -> Option<(&str, &str)>
    ensures { option_map (λ p. (p.0.now, p.1.now)) result ≡ two_texts (view value.entry.now) }
{
    pair_of(value.as_array()?.as_slice())
}

fn pair_of(items: &[Value]) -> Option<(&str, &str)>
    ensures { option_map (λ p. (p.0.now, p.1.now)) result ≡ pair_of (items_view items.now) }
{
    match items {
        [] => None,
        [_] => None,
        [field, text] => {
            let field = field.as_str()?;
            let text = text.as_str()?;
            Some((field, text))
        }
        [_, _, _, ..] => None,
    }
}

/// Whether the strings of a value, the names of members aside, have no more bytes in all.
pub fn is_within(value: &Value, most: usize) -> bool
    ensures { result ≡ nat_le (bytes_in (view value.now)) most }
{
    room_behind(value, most).is_some()
}

/// What is left of the room behind the strings of a value.
#[cycle(room_behind)]
fn room_behind(value: &Value, room: usize) -> Option<usize>
    ensures { result ≡ room_behind room (bytes_in (view value.now)) }
{
    match value {
        Value::String(text) => room.checked_sub(text.len()),
        Value::Array(items) => room_behind_items(items, room),
        Value::Object(members) => room_behind_members(members, room),
        _ => Some(room),
    }
}

#[cycle(room_behind)]
fn room_behind_items(items: &[Value], room: usize) -> Option<usize>
    ensures { result ≡ room_behind room (bytes_in_items (items_view items.now)) }
{
    let mut left = room;
    'items: for item in items {
        left = room_behind(item, left)?;
    }
    Some(left)
}

#[cycle(room_behind)]
fn room_behind_members(members: &Map<String, Value>, room: usize) -> Option<usize>
    ensures { result ≡ room_behind room (bytes_in_members (members_view members.now.entries)) }
{
    let mut left = room;
    'members: for (_, member) in members.iter() {
        left = room_behind(member, left)?;
    }
    Some(left)
}
