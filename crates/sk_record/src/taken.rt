//! What is moved out of a value. No string is copied.
ghost use Rattle.std.specs.Prelude.{◌≡◌, IfOk, option_map};
ghost use Rattle.serde_json.specs.View.{view, items_view};
ghost use Rattle.serde_json.specs.Find.{get, as_str};
ghost use Rattle.sk_json.specs.Values.{texts_of};
ghost use Rattle.sk_record.specs.Taken.{without_member};

use serde_json::Value;
use sk_base::{Items, Text, Texts};
use std::alloc::{AllocError, Global};

/// Takes a member out of an object.
pub fn take_member(value: &mut Value, name: &str) -> Option<Value>
    ensures taken { option_map view result ≡ get name.now (view value.old) }
    ensures left { view value.new ≡ without_member name.now (view value.old) }
{
    let members = value.as_object_mut()?;
    members.remove(name)
}

/// The string that a value is.
pub fn text_of(value: Value) -> Option<Text>
    ensures { result ≡ as_str (view value) }
{
    match value {
        Value::String(string) => Some(Text::from_string(string)),
        _ => None,
    }
}

/// The strings that the items are, and none where one of them is something else.
pub fn into_texts(alloc: Global, items: Vec<Value>) -> Result<Option<Texts>, AllocError>
    ensures { IfOk result (λ texts. texts ≡ texts_of (items_view items.items)) }
{
    let mut texts = Items::new(alloc);
    'items: for item in items {
        let Some(text) = text_of(item) else {
            return Ok(None);
        };
        texts.push(text)?;
    }
    Ok(Some(texts))
}
