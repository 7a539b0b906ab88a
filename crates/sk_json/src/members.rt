//! The members of an object, and numbers.
ghost use Rattle.std.specs.Prelude.{◌≡◌, map, option_map};
ghost use Rattle.serde_json.specs.View.{view, members_view};
ghost use Rattle.sk_json.specs.Values.{has, has_only, all_names, is_one_of, text_at, whole_number, between, optional_text, optional_number, optional_flag};

use serde_json::{Map, Value};

/// Whether the value is an object with this member.
pub fn has(value: &Value, name: &str) -> bool
    ensures { result ≡ has name.now (view value.now) }
{
    value.get(name).is_some()
}

/// Whether the value is an object, and each of its members has one of the names.
pub fn has_only(value: &Value, names: &[&str]) -> bool
    ensures { result ≡ has_only (map (λ s. s.now) names.now) (view value.now) }
{
    match value {
        Value::Object(members) => all_among(members, names),
        _ => false,
    }
}

fn all_among(members: &Map<String, Value>, names: &[&str]) -> bool
    ensures { result ≡ all_names (is_one_of (map (λ s. s.now) names.now)) (members_view members.now.entries) }
{
    'members: for (name, _) in members.iter() {
        if !is_one_of(names, name.as_str()) {
            return false;
        }
    }
    true
}

fn is_one_of(texts: &[&str], text: &str) -> bool
    ensures { result ≡ is_one_of (map (λ s. s.now) texts.now) text.now }
{
    match texts {
        [] => false,
        [first, rest @ ..] => text == *first || is_one_of(rest, text),
    }
}

/// The text at a member.
pub fn text_at<'a>(value: &'a Value, name: &str) -> Option<&'a str>
    ensures { option_map (λ s. s.now) result ≡ text_at name.now (view value.entry.now) }
{
    value.get(name)?.as_str()
}

/// The unsigned number of 64 bits that the value is.
pub fn whole_number(value: &Value) -> Option<u64>
    ensures { result ≡ whole_number (view value.now) }
{
    value.as_u64()
}

/// The number, where it lies between the two.
pub fn between(least: u32, most: u32, n: u64) -> Option<u32>
    ensures { result ≡ between least most n }
{
    if n < least as u64 || n > most as u64 {
        return None;
    }
    Some(n as u32)
}

/// The text at a member, and the empty one where there is no such member.
pub fn optional_text<'a>(value: &'a Value, name: &str) -> Option<&'a str>
    ensures { option_map (λ s. s.now) result ≡ optional_text name.now (view value.entry.now) }
{
    match value.get(name) {
        Some(inner) => inner.as_str(),
        None => Some(""),
    }
}

/// The number at a member, and the given one where there is no such member.
pub fn optional_number(value: &Value, name: &str, otherwise: u64) -> Option<u64>
    ensures { result ≡ optional_number name.now otherwise (view value.now) }
{
    match value.get(name) {
        Some(inner) => inner.as_u64(),
        None => Some(otherwise),
    }
}

/// Whether a member says true, and false where there is no such member.
pub fn optional_flag(value: &Value, name: &str) -> Option<bool>
    ensures { result ≡ optional_flag name.now (view value.now) }
{
    match value.get(name) {
        Some(inner) => inner.as_bool(),
        None => Some(false),
    }
}
