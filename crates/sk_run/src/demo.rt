//! The commands of a demonstration.
ghost use Rattle.std.specs.Prelude.{◌≡◌, false, ◌<◌, ◌≤◌, ◌^◌, ◌+◌, ◌%◌, ℕ, List, codes, decimal, ◌++◌, Some, None, IfOk, IfErr, OnOk, string_bytes};
ghost use Rattle.serde_json.specs.View.{view};
ghost use Rattle.sk_base.specs.Commands.{command_over};
ghost use Rattle.sk_base.specs.Finds.{find_over};
ghost use Rattle.sk_run.specs.declared.response.Printing.TheVariants as Printing;
ghost use Rattle.sk_run.specs.declared.response.Response.{Response};
ghost use Rattle.sk_run.specs.declared.status.Status.{Status};
ghost use Rattle.sk_run.specs.Outsides.{output_at};
ghost use Rattle.sk_run.specs.Machines.{MachineStands};
ghost use Rattle.sk_run.specs.Conducts.{State, Obeys};
ghost use Rattle.sk_run.specs.Ended.{Ended, Continues, NotWhole};
ghost use Rattle.sk_run.specs.Closing.{NeverTaken};
ghost use Rattle.sk_run.specs.Obeying.{ObeysFirst, ObeysThrough};
ghost use Rattle.sk_run.specs.Demos.{demo_schema, alls, demo_body, demo_record, three_by, demo_find, demo_command, demo_commands};

use crate::line::answer_request;
use crate::request::Request;
use crate::waiting::Waiting;
use crate::{Machine, Printing, Status, Store};
use serde_json::Value;
use sk_base::{
    Ask, Collapse, Command, Edit, Entry, Field, FieldKind, FieldValue, Find, Items, Join, Options,
    Order, OrderBy, Paging, Question, Record, Schema, SortKey, Text, default_options,
    default_paging,
};
use sk_io::Sink;
use sk_steps::Steps;
use std::alloc::{AllocError, Global};
use std::sync::ledger::Ledger;

/// Obeys the commands of a demonstration with so many documents, each made when the one before it was obeyed. The
/// answer is the machine behind them, and whether a command was refused, or why not all were obeyed.
pub(crate) fn obey_demo<M: Store, K: Sink, L: Ledger>(
    alloc: Global,
    documents: usize,
    output: &mut K,
    steps: &mut Steps<L>,
) -> Result<(Machine<M>, bool), Status>
    requires { documents < 2 ^ 32 }
    ensures ok { IfOk result (λ p. Continues Printing.WithoutOk
        (ObeysThrough (Obeys M.conduct) (MachineStands M.under M.holds) p.0 None (demo_commands documents)) false p.1
        (output_at (K.seen output.old) steps.old)
        (output_at (K.seen output.new) steps.new)) }
    ensures err { IfErr result (λ status. Ended Printing.WithoutOk
        NotWhole NeverTaken (ObeysFirst (Obeys M.conduct) None (demo_commands documents)) false status
        (output_at (K.seen output.old) steps.old)
        (output_at (K.seen output.new) steps.new)) }
{
    let Ok(mut waiting) = Waiting::new(alloc) else {
        return Err(Status::Memory);
    };
    let mut machine = Machine::<M>::new();
    let mut refused = false;
    'commands: for place in 0..documents + 6 {
        let Ok(command) = demo_command(alloc, documents, place) else {
            return Err(waiting.put_last(output));
        };
        let (next, refuses) = answer_request(
            alloc,
            machine,
            Request::Asks(command),
            Printing::WithoutOk,
            &mut waiting,
            output,
            steps,
        )?;
        refused |= refuses;
        machine = next;
    }
    let Ok(()) = waiting.put(output) else {
        return Err(Status::WriteFault);
    };
    Ok((machine, refused))
}

/// The command at a place, from 0, of a demonstration with so many documents: the schema, the documents from 1 on, and
/// the finds.
pub fn demo_command(
    alloc: Global,
    documents: usize,
    place: usize,
) -> Result<Command<Value>, AllocError>
    ensures { IfOk result (λ command. command_over view command ≡ demo_command documents place) }
{
    if place == 0 {
        let schema = demo_schema(alloc)?;
        return Ok(Command::Schema(schema, 1));
    }
    if place <= documents {
        let record = demo_record(alloc, place)?;
        return Ok(Command::Edit(Edit::Add(record)));
    }
    let find = demo_find(alloc, place - documents - 1)?;
    Ok(Command::Ask(Question::Find(find)))
}

/// A text, a number and a word.
fn demo_schema(alloc: Global) -> Result<Schema, AllocError>
    ensures { IfOk result (λ schema. schema ≡ demo_schema) }
{
    let mut fields = Vec::new(alloc);
    fields.push(Field {
        name: Text::new(alloc, "body")?,
        kind: FieldKind::Text(Text::empty(alloc), 1),
    })?;
    fields.push(Field {
        name: Text::new(alloc, "year")?,
        kind: FieldKind::Number(0),
    })?;
    fields.push(Field {
        name: Text::new(alloc, "site")?,
        kind: FieldKind::Word(1),
    })?;
    match Schema::check(fields, false) {
        Some(schema) => Ok(schema),
        None => unreachable!(),
    }
}

/// The document with this number.
fn demo_record(alloc: Global, number: usize) -> Result<Record, AllocError>
    ensures { IfOk result (λ made. made ≡ demo_record number) }
{
    let mut values = Items::new(alloc);
    values.push(Entry {
        field: 0,
        value: FieldValue::Text(demo_body(alloc, number)?),
    })?;
    values.push(Entry {
        field: 1,
        value: FieldValue::Number(1900 + number as u64 % 120),
    })?;
    values.push(Entry {
        field: 2,
        value: FieldValue::Word(demo_site(alloc, number)?),
    })?;
    Ok(Record {
        values,
        payload: Text::empty(alloc),
    })
}

/// The words of the document with this number.
fn demo_body(alloc: Global, number: usize) -> Result<Text, AllocError>
    ensures { IfOk result (λ text. text ≡ demo_body number) }
{
    let d = number % 10;
    let h = number % 100;
    let k = number % 1000;
    let mut body = format!(in alloc; "all d{d} h{h} k{k}")?;
    push_alls(&mut body, number % 7)?;
    Ok(Text::from_string(body))
}

/// The word `all` so often again.
#[tactic(auto, using(crate::proofs::DemoLemmas::alls_more))]
fn push_alls(body: &mut String, count: usize) -> Result<(), AllocError>
    ensures { OnOk result (string_bytes body.new ≡ string_bytes body.old ++ alls count) }
{
    'alls: for _ in 0..count {
        body.push_str(" all")?;
    }
    Ok(())
}

fn demo_site(alloc: Global, number: usize) -> Result<Text, AllocError>
    ensures { IfOk result (λ text. text ≡ codes "s" ++ decimal (number % 50)) }
{
    let site = number % 50;
    let name = format!(in alloc; "s{site}")?;
    Ok(Text::from_string(name))
}

/// The find at a place, from 0.
fn demo_find(alloc: Global, place: usize) -> Result<Find<Value>, AllocError>
    ensures { IfOk result (λ find. find_over view find ≡ demo_find place) }
{
    match place {
        0 => three_by(alloc, "all", default_paging().order, None),
        1 => three_by(alloc, "d3 h3", default_paging().order, None),
        2 => three_by(alloc, "all AND k7", default_paging().order, None),
        3 => three_by(
            alloc,
            "d1 all",
            default_paging().order,
            Some(Collapse { slot: 1, max: 1 }),
        ),
        _ => three_by(
            alloc,
            "year:1950..1959",
            Order {
                by: OrderBy::Value(SortKey {
                    slot: 0,
                    reverse: true,
                }),
                falling: false,
            },
            None,
        ),
    }
}

/// A find of three hits, by a text.
fn three_by(
    alloc: Global,
    text: &str,
    order: Order,
    collapse: Option<Collapse>,
) -> Result<Find<Value>, AllocError>
    ensures { IfOk result (λ find. find_over view find ≡ three_by text.now order collapse) }
{
    let text = Text::new(alloc, text)?;
    Ok(Find {
        ask: Ask::Text(text, Join::Or),
        paging: Paging {
            options: Options {
                size: 3,
                ..default_options()
            },
            order,
            collapse,
        },
    })
}
