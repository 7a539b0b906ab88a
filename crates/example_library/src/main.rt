//! The crates as libraries. `find`, or no word: a session over three documents, and the report of a find in them.
//! `parse TEXT ..`: the tree of each query text, or its first fault with the byte where that stands.
#![tactic(auto)]

ghost use Rattle.std.specs.Prelude.{◌≡◌, ◌≤◌, ℕ, length, string_bytes, Ok, Err, IfOk};
ghost use Rattle.sk_grammar.specs.declared.fault.FaultKind.{FaultKind};
ghost use Rattle.sk_run.specs.Held.{Held, edited_held};
ghost use Rattle.sk_parser.specs.declared.parsing.ParseError.TheVariants as ParseError;
ghost use Rattle.sk_engine.specs.Sessions.{SessionHolds, schema_of};
ghost use Rattle.example_library.specs.Example.{bodies, addition, three, Answers, json_meant};

use anyhow::{Result, ensure};
use serde_json::Value;
use sk_base::{
    Ask, Edit, Entry, Field, FieldKind, FieldValue, Find, Items, Join, MOST_TEXT, Record, Report,
    Schema, Text, default_paging,
};
use sk_engine::Session;
use sk_parser::{AskError, ParseError, parse};
use sk_steps::Steps;
use std::alloc::{AllocError, Global};
use std::env;
use std::env::Args;
use std::iter::Skip;
use std::marker::Brand;
use std::rt::Env;
use std::sync::ledger::{Blank, Ledger};

/// The schema: one text, whose words are terms without a prefix, and count once; words are not stemmed.
fn schema(alloc: Global) -> Result<Schema, AllocError>
    ensures { IfOk result (λ schema. schema ≡ bodies) }
{
    let mut fields = Vec::new(alloc);
    fields.push(Field {
        name: Text::new(alloc, "body")?,
        kind: FieldKind::Text(Text::empty(alloc), 1),
    })?;
    match Schema::check(fields, false) {
        Some(schema) => Ok(schema),
        None => unreachable!(),
    }
}

/// The edit that adds a document with this body, and a text that is handed back.
fn addition(alloc: Global, payload: &str, body: &str) -> Result<Edit, AllocError>
    ensures { IfOk result (λ edit. edit ≡ addition payload.now body.now) }
{
    let mut values = Items::new(alloc);
    values.push(Entry {
        field: 0,
        value: FieldValue::Text(Text::new(alloc, body)?),
    })?;
    let payload = Text::new(alloc, payload)?;
    Ok(Edit::Add(Record { values, payload }))
}

/// The session after one more edit. Where that fails the session is given up.
fn after(session: Session, edit: Edit) -> Result<Session>
    requires { schema_of session ≡ bodies }
    ensures schema { IfOk result (λ more. schema_of more ≡ bodies) }
    ensures holds { IfOk result (λ more. (held : Held) → SessionHolds session held → SessionHolds more (edited_held bodies held edit)) }
{
    ensure!(edit.fits(session.schema()), "no edit of this schema");
    let (session, _reply) = session.apply(edit)?;
    Ok(session)
}

/// The session with one more document. Where that fails the session is given up.
fn add(alloc: Global, session: Session, payload: &str, body: &str) -> Result<Session>
    requires { schema_of session ≡ bodies }
    ensures schema { IfOk result (λ more. schema_of more ≡ bodies) }
    ensures holds { IfOk result (λ more. (held : Held) → SessionHolds session held → SessionHolds more (edited_held bodies held (addition payload.now body.now))) }
{
    let edit = addition(alloc, payload, body)?;
    after(session, edit)
}

/// A session with three documents.
fn three_documents(alloc: Global) -> Result<Session>
    ensures schema { IfOk result (λ session. schema_of session ≡ bodies) }
    ensures holds { IfOk result (λ session. SessionHolds session three) }
{
    let session = Session::new(alloc, schema(alloc)?, 1)?;
    let session = add(alloc, session, "one", "the red fox sleeps")?;
    let session = add(alloc, session, "two", "a fox and a red fox")?;
    add(alloc, session, "three", "a brown hen")
}

/// The first ten documents that a text finds, and what is known of all, under a counter of its own.
fn find<R: Env, L: Ledger>(
    rt: &R,
    blank: Blank,
    session: &Session,
    text: Text,
) -> Result<Report, AskError>
    requires name { blank.name ≡ L.name }
    requires parts { blank.parts ≡ L.parts }
    requires one { blank.parts ≡ 1 }
    requires short { length text ≤ 1048576 }
    ensures { (held : Held) → SessionHolds session.now held → Answers (schema_of session.now) held text result }
{
    let mut steps = Steps::<L>::open(rt, blank);
    let find: Find<Value> = Find {
        ask: Ask::Text(text, Join::Or),
        paging: default_paging(),
    };
    session.find(&find, &mut steps)
}

/// The JSON of the tree of a query text, or its first fault.
fn tree_of(alloc: Global, schema: &Schema, text: &str) -> Result<String, ParseError>
    requires { length text.now ≤ 1048576 }
    ensures json { IfOk result (λ json. json_meant schema.now text.now ≡ Ok (string_bytes json)) }
    ensures fault { (kind : FaultKind) (byte : ℕ) → result ≡ Err (ParseError.Fault kind byte) → json_meant schema.now text.now ≡ Err (kind, byte) }
{
    let query = parse(alloc, text, schema, Join::Or)?;
    let json = sk_query_json::text(alloc, &query)?;
    Ok(json)
}

/// What the first text finds in the three documents.
fn found(rt: &HostRuntime, alloc: Global) -> Result<Report> {
    let text = Text::new(alloc, "red fox")?;
    let session = three_documents(alloc)?;
    let report = find::<_, Brand>(rt, Blank::new(1), &session, text);
    drop(session);
    Ok(report?)
}

fn print_report(rt: &HostRuntime, report: &Report) -> Result<()> {
    let (lower, upper, steps) = (report.lower, report.upper, report.steps);
    println!(rt; "{lower} to {upper} match, {steps} steps")?;
    for hit in report.hits.as_slice() {
        let (id, weight, payload) = (hit.id, hit.weight, hit.payload.as_str());
        println!(rt; "{id} weighs {weight}: {payload}")?;
    }
    Ok(())
}

/// Prints the tree of each text, or its first fault.
fn print_trees(rt: &HostRuntime, alloc: Global, texts: Skip<Args>) -> Result<()> {
    let schema = schema(alloc)?;
    for text in texts {
        ensure!(text.len() <= MOST_TEXT, "a text is too long");
        match tree_of(alloc, &schema, text.as_str()) {
            Ok(json) => println!(rt; "{json}")?,
            Err(ParseError::Fault(kind, byte)) => println!(rt; "{kind:?} at {byte}")?,
            Err(ParseError::NoMemory) => return Err(AllocError.into()),
        }
    }
    Ok(())
}

fn main(rt: HostRuntime) -> Result<()> {
    let alloc = rt.alloc();
    let mut words = env::args(&rt)?.skip(1);
    let mut word = words.next();
    if word.as_ref().is_none_or(|word| word.as_str() == "find") {
        let report = found(&rt, alloc)?;
        print_report(&rt, &report)?;
        word = words.next();
    }
    let is_parse = word.is_none_or(|word| word.as_str() == "parse");
    ensure!(is_parse, "usage: example_library [find] [parse TEXT ..]");
    print_trees(&rt, alloc, words)
}
