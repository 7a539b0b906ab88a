//! The answer of one line, which joins those that wait.
ghost use Rattle.std.specs.Prelude.{◌≡◌, IfOk, IfErr, Some};
ghost use Rattle.sk_io.specs.Answers.{IsShort};
ghost use Rattle.sk_run.specs.Outsides.{output_at};
ghost use Rattle.sk_run.specs.Lines.{AnsweredLine};
ghost use Rattle.sk_run.specs.Machines.{MachineStands, schema_in};
ghost use Rattle.sk_run.specs.Conducts.{AnswersAs};
ghost use Rattle.sk_run.specs.Requests.{MayBeAsked, AnsweredRequest, schema_after};
ghost use Rattle.sk_run.specs.Waiting.{Joins, JoinsNot};
ghost use Rattle.sk_run.specs.declared.machine.Machine.{Machine};

use crate::request::{Request, request_of};
use crate::waiting::Waiting;
use crate::{Machine, Printing, Reading, Status, Store};
use sk_io::{Line, Sink};
use sk_steps::Steps;
use std::alloc::Global;
use std::sync::ledger::Ledger;

/// Answers a line. The answer is the machine behind it, and whether the line was refused, or why it was not answered.
pub(crate) fn answer_line<M: Store, K: Sink, L: Ledger>(
    alloc: Global,
    machine: Machine<M>,
    reading: Reading,
    printing: Printing,
    line: Line<'_>,
    waiting: &mut Waiting,
    output: &mut K,
    steps: &mut Steps<L>,
) -> Result<(Machine<M>, bool), Status>
    requires { IsShort (Some line) }
    ensures ok { IfOk result (λ p. Joins printing
        (λ answer. AnsweredLine (MachineStands M.under M.holds) (AnswersAs M.conduct reading) machine line.entry answer p.0) waiting.old waiting.new p.1
        (output_at (K.seen output.old) steps.old)
        (output_at (K.seen output.new) steps.new)) }
    ensures err { IfErr result (λ status. JoinsNot printing
        (λ answer. (next : Machine M) × AnsweredLine (MachineStands M.under M.holds) (AnswersAs M.conduct reading) machine line.entry answer next) waiting.old status
        (output_at (K.seen output.old) steps.old)
        (output_at (K.seen output.new) steps.new)) }
{
    let Ok(request) = request_of(alloc, machine.schema(), reading, line) else {
        return Err(waiting.put_last(output));
    };
    answer_request(alloc, machine, request, printing, waiting, output, steps)
}

/// Answers what a line asks for. Where it may read, what waits is put before: should memory run out within, no
/// answer waits whose readings would have to be told from those.
pub(crate) fn answer_request<M: Store, K: Sink, L: Ledger>(
    alloc: Global,
    machine: Machine<M>,
    request: Request,
    printing: Printing,
    waiting: &mut Waiting,
    output: &mut K,
    steps: &mut Steps<L>,
) -> Result<(Machine<M>, bool), Status>
    requires { MayBeAsked (schema_in M.under machine) request }
    ensures ok { IfOk result (λ p. Joins printing
        (λ answer. AnsweredRequest M.under M.holds M.conduct machine request answer p.0) waiting.old waiting.new p.1
        (output_at (K.seen output.old) steps.old)
        (output_at (K.seen output.new) steps.new)) }
    ensures schema { IfOk result (λ p. schema_in M.under p.0 ≡ schema_after (schema_in M.under machine) request) }
    ensures err { IfErr result (λ status. JoinsNot printing
        (λ answer. (next : Machine M) × AnsweredRequest M.under M.holds M.conduct machine request answer next) waiting.old status
        (output_at (K.seen output.old) steps.old)
        (output_at (K.seen output.new) steps.new)) }
{
    let stays = !request.may_read();
    let Ok(()) = waiting.put_unless(stays, output) else {
        drop(request);
        return Err(Status::WriteFault);
    };
    let Ok((next, answer)) = machine.answer(alloc, request, steps) else {
        return Err(waiting.put_last(output));
    };
    let refuses = answer.refuses();
    let text = answer.text_under(alloc, printing);
    drop(answer);
    let Ok(text) = text else {
        return Err(waiting.put_last(output));
    };
    let Ok(()) = waiting.join(text.as_bytes(), output) else {
        return Err(Status::WriteFault);
    };
    Ok((next, refuses))
}
