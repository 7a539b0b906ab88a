//! The reader of command lines.
ghost use Rattle.std.specs.Prelude.{IfOk, Some, None};
ghost use Rattle.std.specs.Option.{option_copied};
ghost use Rattle.serde_json.specs.View.{view};
ghost use Rattle.sk_record.specs.Lines.{line_value};
ghost use Rattle.sk_record.specs.Outcome.{outcome, value_outcome, CommandReadsAs, MayCome};

use crate::LineFault;
use crate::judge::command_of;
use crate::line::line_value;
use crate::rows::later_row;
use crate::schema::schema_row;
use serde_json::Value;
use sk_base::{Command, Schema};
use sk_json::has;
use std::alloc::Global;

/// The command of a line, under the schema that was accepted before, if any.
pub fn command(
    alloc: Global,
    line: &[u8],
    schema: Option<&Schema>,
) -> Result<Command<Value>, LineFault>
    // Exactly the command, or the first fault.
    ensures reads { CommandReadsAs (outcome (option_copied schema.entry) (line_value line.now)) result }
    // It may come under that schema: an edit fits it, and a question its bounds.
    ensures comes { IfOk result (MayCome (option_copied schema.entry)) }
{
    let mut value = line_value(alloc, line)?;
    match schema {
        None => first_command(alloc, &value),
        Some(schema) => later_command(alloc, schema, &mut value),
    }
}

/// Before a schema was accepted, a line can only bring one.
fn first_command(alloc: Global, value: &Value) -> Result<Command<Value>, LineFault>
    ensures reads { CommandReadsAs (value_outcome None (view value.now)) result }
    ensures comes { IfOk result (MayCome None) }
{
    if !has(value, "schema") {
        return Err(LineFault::NoSchema);
    }
    let Some(row) = schema_row(alloc, value)? else {
        return Err(LineFault::BadShape);
    };
    match Schema::check(row.fields, row.stem) {
        Some(schema) => Ok(Command::Schema(schema, row.parts)),
        None => Err(LineFault::BadField),
    }
}

fn later_command(
    alloc: Global,
    schema: &Schema,
    value: &mut Value,
) -> Result<Command<Value>, LineFault>
    ensures reads { CommandReadsAs (value_outcome (Some schema.now) (view value.old)) result }
    ensures comes { IfOk result (MayCome (Some schema.now)) }
{
    if has(value, "schema") {
        return Err(LineFault::SchemaAgain);
    }
    let Some(row) = later_row(alloc, value) else {
        return Err(LineFault::BadShape);
    };
    match command_of(alloc, schema.fields(), row)? {
        Some(command) => Ok(command),
        None => Err(LineFault::BadField),
    }
}
