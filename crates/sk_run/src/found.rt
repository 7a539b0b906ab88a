//! The text of a report.
ghost use Rattle.std.specs.Prelude.{◌≡◌, ◌++◌, ◌+◌, codes, decimal, string_bytes, length, IfOk, OnOk};
ghost use Rattle.json.specs.Print.{quoted};
ghost use Rattle.sk_run.specs.Found.{found_line, found_rest, hit_line, found_text};

use itoa::Buffer;
use json::Writer;
use sk_base::{Ranked, Report};
use std::alloc::{AllocError, Global};

/// For how many bytes of each line room is taken at once. Most lines have fewer.
const LINE: usize = 64;

/// The line of a report, and one line for each hit.
pub(crate) fn found_lines(alloc: Global, first: u32, report: &Report) -> Result<String, AllocError>
    ensures { IfOk result (λ s. string_bytes s ≡ found_text first report.now) }
{
    let hits = report.hits.as_slice();
    let mut text = String::with_capacity(alloc, LINE.saturating_mul(hits.len().saturating_add(2)))?;
    push_found_line(&mut text, report)?;
    let mut payload = String::new(alloc);
    'hits: for (i, hit) in hits.iter().enumerate() {
        payload = json_string_in(payload, hit.payload.as_str())?;
        push_hit_line(&mut text, first as usize + i, hit, payload.as_str())?;
    }
    Ok(text)
}

/// Writes the line of a report behind the text.
fn push_found_line(text: &mut String, report: &Report) -> Result<(), AllocError>
    ensures { OnOk result (string_bytes text.new ≡ string_bytes text.old ++ found_line report.now) }
{
    let hits = report.hits.as_slice().len();
    push_number(text, "found hits=", hits as u128)?;
    push_number(text, " lower=", report.lower as u128)?;
    push_number(text, " estimate=", report.estimate as u128)?;
    push_found_rest(text, report)
}

/// Writes its second half.
fn push_found_rest(text: &mut String, report: &Report) -> Result<(), AllocError>
    ensures { OnOk result (string_bytes text.new ≡ string_bytes text.old ++ found_rest report.now) }
{
    push_number(text, " upper=", report.upper as u128)?;
    push_number(text, " max=", report.greatest)?;
    push_number(text, " steps=", report.steps)?;
    text.push_str("\n")
}

/// Writes the line of a hit behind the text. `payload` is its own in JSON.
fn push_hit_line(
    text: &mut String,
    rank: usize,
    hit: &Ranked,
    payload: &str,
) -> Result<(), AllocError>
    requires { payload.now ≡ quoted hit.now.payload }
    ensures { OnOk result (string_bytes text.new ≡ string_bytes text.old ++ hit_line rank hit.now) }
{
    let weight = hit.weight;
    push_number(text, "hit rank=", rank as u128)?;
    push_number(text, " id=", hit.id as u128)?;
    push_number(text, " weight=", weight)?;
    push_collapsed(text, hit.collapsed)?;
    text.push_str(payload)?;
    text.push_str("\n")
}

/// Writes how many were collapsed into a hit, up to its payload. Mostly none were.
fn push_collapsed(text: &mut String, collapsed: u32) -> Result<(), AllocError>
    ensures { OnOk result (string_bytes text.new ≡ string_bytes text.old ++ (codes " collapsed=" ++ (decimal collapsed ++ codes " data="))) }
{
    if collapsed == 0 {
        text.push_str(" collapsed=0 data=")?;
        return Ok(());
    }
    push_number(text, " collapsed=", collapsed as u128)?;
    text.push_str(" data=")?;
    Ok(())
}

/// Writes a name and a number behind the text.
fn push_number(text: &mut String, name: &str, n: u128) -> Result<(), AllocError>
    ensures { OnOk result (string_bytes text.new ≡ string_bytes text.old ++ (name.now ++ decimal n)) }
{
    text.push_str(name)?;
    let mut buffer = Buffer::new();
    text.push_str(buffer.format(n))
}

/// The text as a JSON string.
pub(crate) fn json_string(alloc: Global, text: &str) -> Result<String, AllocError>
    ensures { IfOk result (λ s. string_bytes s ≡ quoted text.now) }
{
    json_string_in(String::new(alloc), text)
}

/// The same, in the memory of another string.
fn json_string_in(room: String, text: &str) -> Result<String, AllocError>
    ensures { IfOk result (λ s. string_bytes s ≡ quoted text.now) }
{
    if text.is_empty() {
        let mut room = room;
        room.clear();
        room.push_str("\"\"")?;
        return Ok(room);
    }
    let mut bytes = room.into_bytes();
    bytes.clear();
    let mut writer = Writer::new(bytes);
    writer.string(text)?;
    match String::from_utf8(writer.into_inner()) {
        Ok(text) => Ok(text),
        Err(_) => unreachable!(),
    }
}
