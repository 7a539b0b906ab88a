//! What a line asks for.
ghost use Rattle.std.specs.Prelude.{◌≡◌, ◌≤◌, IfOk, length, Some};
ghost use Rattle.std.specs.Option.{option_copied};
ghost use Rattle.sk_io.specs.LineText.{most_line};
ghost use Rattle.sk_io.specs.Answers.{IsShort};
ghost use Rattle.sk_run.specs.Meaning.{is_blank, meaning};
ghost use Rattle.sk_run.specs.Queries.{find_by, query_meaning};
ghost use Rattle.serde_json.specs.View.{view};
ghost use Rattle.sk_base.specs.Finds.{find_over};
ghost use Rattle.sk_run.specs.Requests.{meant, meaning_as, AsksFor, MayBeAsked, may_read};

use crate::asking::reads;
use crate::{Reading, Refusal};
use serde_json::Value;
use sk_base::{Ask, Command, Find, Join, Question, Schema, Text, default_paging};
use sk_io::Line;
use sk_record::{LineFault, command};
use std::alloc::{AllocError, Global};

/// What a line asks for.
#[derive(Drop)]
pub(crate) enum Request {
    /// A blank line asks for nothing.
    Blank,
    Refused(Refusal),
    Asks(Command<Value>),
}

impl Request {
    /// Whether readings may be made or told for it: a question that reads, and what asks for searches in flight.
    pub(crate) fn may_read(&self) -> bool
        ensures { result ≡ may_read self.now }
    {
        match self {
            Request::Asks(Command::Ask(question)) => reads(question),
            Request::Asks(Command::Flight(_)) => true,
            _ => false,
        }
    }
}

/// What a line asks for, under the schema that was accepted before, if any.
pub(crate) fn request_of(
    alloc: Global,
    schema: Option<&Schema>,
    reading: Reading,
    line: Line<'_>,
) -> Result<Request, AllocError>
    requires { IsShort (Some line) }
    ensures asks { IfOk result (AsksFor reading (option_copied schema.entry) line.entry) }
    ensures may { IfOk result (MayBeAsked (option_copied schema.entry)) }
{
    match line {
        Line::Whole(text) => text_request(alloc, schema, reading, text),
        Line::TooLong => Ok(Request::Refused(Refusal::TooLong)),
    }
}

/// What a line asks for that is not too long.
fn text_request(
    alloc: Global,
    schema: Option<&Schema>,
    reading: Reading,
    line: &[u8],
) -> Result<Request, AllocError>
    requires { length line.now ≤ most_line }
    ensures asks { IfOk result (λ request. meaning_as reading (option_copied schema.entry) line.now ≡ meant request) }
    ensures may { IfOk result (MayBeAsked (option_copied schema.entry)) }
{
    match reading {
        Reading::Commands => command_request(alloc, schema, line),
        Reading::Queries(join) => query_request(alloc, schema, join, line),
    }
}

/// What a line asks for that is read as a command.
fn command_request(
    alloc: Global,
    schema: Option<&Schema>,
    line: &[u8],
) -> Result<Request, AllocError>
    requires { length line.now ≤ most_line }
    ensures asks { IfOk result (λ request. meaning (option_copied schema.entry) line.now ≡ meant request) }
    ensures may { IfOk result (MayBeAsked (option_copied schema.entry)) }
{
    if is_blank(line) {
        return Ok(Request::Blank);
    }
    match command(alloc, line, schema) {
        Ok(command) => Ok(Request::Asks(command)),
        Err(LineFault::NotJson) => Ok(Request::Refused(Refusal::NotJson)),
        Err(LineFault::NoSchema) => Ok(Request::Refused(Refusal::NoSchema)),
        Err(LineFault::SchemaAgain) => Ok(Request::Refused(Refusal::SchemaAgain)),
        Err(LineFault::BadShape) => Ok(Request::Refused(Refusal::BadShape)),
        Err(LineFault::BadField) => Ok(Request::Refused(Refusal::BadField)),
        Err(LineFault::NoMemory) => Err(AllocError),
    }
}

/// What a line asks for that is read as a query text.
fn query_request(
    alloc: Global,
    schema: Option<&Schema>,
    join: Join,
    line: &[u8],
) -> Result<Request, AllocError>
    requires { length line.now ≤ most_line }
    ensures asks { IfOk result (λ request. query_meaning join (option_copied schema.entry) line.now ≡ meant request) }
    ensures may { IfOk result (MayBeAsked (option_copied schema.entry)) }
{
    let Some(_) = schema else {
        return Ok(Request::Refused(Refusal::NoSchema));
    };
    match str::from_utf8(line) {
        Ok(text) => {
            let find = find_by(alloc, join, text)?;
            Ok(Request::Asks(Command::Ask(Question::Find(find))))
        }
        Err(_) => Ok(Request::Refused(Refusal::BadShape)),
    }
}

/// The find of a text, with the page of a find that says nothing of it.
fn find_by(alloc: Global, join: Join, text: &str) -> Result<Find<Value>, AllocError>
    ensures { IfOk result (λ find. find_over view find ≡ find_by join text.now) }
{
    let text = Text::new(alloc, text)?;
    Ok(Find {
        ask: Ask::Text(text, join),
        paging: default_paging(),
    })
}

fn is_blank(line: &[u8]) -> bool
    ensures { result ≡ is_blank line.now }
{
    line.iter()
        .all(|b| *b == b'\t' || *b == b'\r' || *b == b' ')
}
