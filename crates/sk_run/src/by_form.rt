//! What the words of a program ask for.
ghost use Rattle.std.specs.Prelude.{◌≡◌, false, ◌<◌, ◌^◌, map, string_bytes, Some, None};
ghost use Rattle.sk_base.specs.declared.find.Join.{Join};
ghost use Rattle.sk_run.specs.declared.form.Form.{Form};
ghost use Rattle.sk_run.specs.declared.form.Form.TheVariants as Form;
ghost use Rattle.sk_run.specs.declared.response.Printing.TheVariants as Printing;
ghost use Rattle.sk_run.specs.declared.response.Response.{Response};
ghost use Rattle.sk_run.specs.declared.status.Status.{Status};
ghost use Rattle.sk_run.specs.declared.status.Status.TheVariants as Status;
ghost use Rattle.sk_run.specs.Outsides.{output_at, outside_at};
ghost use Rattle.sk_run.specs.Ended.{Ended};
ghost use Rattle.sk_run.specs.ByForm.{EndedBy};
ghost use Rattle.sk_run.specs.Conducts.{Obeys, Closes};
ghost use Rattle.sk_run.specs.Closing.{NeverTaken};
ghost use Rattle.sk_run.specs.Obeying.{ObeysAll, ObeysSome};
ghost use Rattle.sk_run.specs.Demos.{demo_commands};
ghost use Rattle.sk_run.specs.Ran.{Ran};

use crate::demo::obey_demo;
use crate::lines::{answer_lines, answer_to_end, close};
use crate::{Form, Machine, Printing, Reading, Status, Store, form_of};
use sk_base::Join;
use sk_io::{Sink, Source};
use sk_steps::Steps;
use std::alloc::Global;
use std::sync::ledger::Ledger;

/// Does what the words ask for, over a store of its own. `run`: each line of `input` is a command, and is answered on
/// `output` before more of it is asked for. `search`: each line of `records` is a command, and then each line of
/// `input` a query text. `demo`: the commands are made from a number.
pub fn run<M: Store, S: Source, R: Source, K: Sink, L: Ledger>(
    alloc: Global,
    words: &[String],
    input: &mut S,
    records: &mut R,
    output: &mut K,
    steps: &mut Steps<L>,
) -> Status
    ensures ran { Ran M.conduct (map string_bytes words.now) result
        (outside_at (S.seen input.old) (R.seen records.old) (K.seen output.old) steps.old)
        (outside_at (S.seen input.new) (R.seen records.new) (K.seen output.new) steps.new) }
    ensures untouched { result ≡ Status.Usage → (input.new ≡ input.old) × (records.new ≡ records.old) × (output.new ≡ output.old) }
{
    match form_of(words) {
        Some(Form::Run) => answer_to_end(
            alloc,
            Machine::<M>::new(),
            Reading::Commands,
            Printing::All,
            false,
            input,
            output,
            steps,
        ),
        Some(Form::Search(join)) => search::<M, _, _, _, _>(
            alloc, join, input, records, output, steps,
        ),
        Some(Form::Demo(documents)) => demonstrate::<M, _, _>(
            alloc,
            documents as usize,
            output,
            steps,
        ),
        None => Status::Usage,
    }
}

/// Answers each line of `records` as a command, and then each line of `input` as a query text.
fn search<M: Store, S: Source, R: Source, K: Sink, L: Ledger>(
    alloc: Global,
    join: Join,
    input: &mut S,
    records: &mut R,
    output: &mut K,
    steps: &mut Steps<L>,
) -> Status
    ensures { EndedBy M.conduct (Form.Search join) result
        (outside_at (S.seen input.old) (R.seen records.old) (K.seen output.old) steps.old)
        (outside_at (S.seen input.new) (R.seen records.new) (K.seen output.new) steps.new) }
{
    let first = Machine::<M>::new();
    match answer_lines(
        alloc,
        first,
        Reading::Commands,
        Printing::WithoutOk,
        false,
        records,
        output,
        steps,
    ) {
        Ok((machine, refused)) => answer_to_end(
            alloc,
            machine,
            Reading::Queries(join),
            Printing::WithoutOk,
            refused,
            input,
            output,
            steps,
        ),
        Err(stopped) => stopped,
    }
}

/// Obeys the commands of a demonstration.
fn demonstrate<M: Store, K: Sink, L: Ledger>(
    alloc: Global,
    documents: usize,
    output: &mut K,
    steps: &mut Steps<L>,
) -> Status
    requires { documents < 2 ^ 32 }
    ensures { Ended Printing.WithoutOk
        (ObeysAll (Obeys M.conduct) (Closes M.conduct) None (demo_commands documents)) NeverTaken (ObeysSome (Obeys M.conduct) (Closes M.conduct) None (demo_commands documents)) false result
        (output_at (K.seen output.old) steps.old)
        (output_at (K.seen output.new) steps.new) }
{
    match obey_demo::<M, _, _>(alloc, documents, output, steps) {
        Ok((machine, refused)) => close(alloc, machine, Printing::WithoutOk, refused, output),
        Err(status) => status,
    }
}
