//! The run over the lines of a source.
ghost use Rattle.std.specs.Prelude.{ℕ, IfOk, IfErr};
ghost use Rattle.sk_run.specs.Outsides.{output_at};
ghost use Rattle.sk_run.specs.Machines.{MachineStands};
ghost use Rattle.sk_run.specs.Conducts.{AnswersAs, Closes};
ghost use Rattle.sk_run.specs.Ended.{Ended};
ghost use Rattle.sk_run.specs.Sources.{GoesThrough, StopsWithin, EndsLines};
ghost use Rattle.sk_run.specs.Closing.{ClosedBy, ClosedOrNot, NeverTaken};

use crate::line::answer_line;
use crate::waiting::Waiting;
use crate::{Machine, Printing, Reading, Status, Store};
use sk_io::{LineStop, Lines, Sink, Source, put_all};
use sk_steps::Steps;
use std::alloc::Global;
use std::sync::ledger::Ledger;

/// How many bytes of one source a run takes at the most.
const LIMIT: u64 = 1 << 40;

/// Answers each line of `input` on `output`, before more of it is asked for, and closes the run. `refused` says whether
/// a line was refused before. The answer is never `Usage`.
pub(crate) fn answer_to_end<M: Store, S: Source, K: Sink, L: Ledger>(
    alloc: Global,
    first: Machine<M>,
    reading: Reading,
    printing: Printing,
    refused: bool,
    input: &mut S,
    output: &mut K,
    steps: &mut Steps<L>,
) -> Status
    ensures { EndsLines (MachineStands M.under M.holds) (AnswersAs M.conduct reading) printing first (S.seen input.old) (S.seen input.new) (Closes M.conduct) refused result
        (output_at (K.seen output.old) steps.old) (output_at (K.seen output.new) steps.new) }
{
    match answer_lines(
        alloc, first, reading, printing, refused, input, output, steps,
    ) {
        Ok((machine, refused)) => close(alloc, machine, printing, refused, output),
        Err(status) => status,
    }
}

/// Answers each line of `input` on `output`, before more of it is asked for: as long as a whole line is held, the
/// answers wait and are put together. The answer is the machine behind the lines, and whether a line was refused so
/// far, or why the lines were not answered to their end.
pub(crate) fn answer_lines<M: Store, S: Source, K: Sink, L: Ledger>(
    alloc: Global,
    first: Machine<M>,
    reading: Reading,
    printing: Printing,
    refused_before: bool,
    input: &mut S,
    output: &mut K,
    steps: &mut Steps<L>,
) -> Result<(Machine<M>, bool), Status>
    ensures ok { IfOk result (λ p. GoesThrough (MachineStands M.under M.holds) (AnswersAs M.conduct reading) printing first (S.seen input.old) (S.seen input.new) p.0 refused_before p.1
        (output_at (K.seen output.old) steps.old) (output_at (K.seen output.new) steps.new)) }
    ensures err { IfErr result (λ status. StopsWithin (MachineStands M.under M.holds) (AnswersAs M.conduct reading) printing first (S.seen input.old) (S.seen input.new) refused_before status
        (output_at (K.seen output.old) steps.old) (output_at (K.seen output.new) steps.new)) }
{
    let Ok(mut lines) = Lines::new(alloc, LIMIT) else {
        return Err(Status::Memory);
    };
    let Ok(mut waiting) = Waiting::new(alloc) else {
        return Err(Status::Memory);
    };
    let mut machine = first;
    let mut refused = refused_before;
    'lines: loop {
        let Ok(()) = waiting.put_unless(lines.waits(), output) else {
            return Err(Status::WriteFault);
        };
        let line = match lines.next(input) {
            Ok(Some(line)) => line,
            Ok(None) => return Ok((machine, refused)),
            Err(LineStop::Failed) => return Err(Status::ReadFault),
            Err(LineStop::TooMuch) => return Err(Status::TooMuch),
        };
        let (next, refuses) = answer_line(
            alloc,
            machine,
            reading,
            printing,
            line,
            &mut waiting,
            output,
            steps,
        )?;
        refused |= refuses;
        machine = next;
    }
}

/// Puts what closes the run, and ends the output.
pub(crate) fn close<M: Store, K: Sink>(
    alloc: Global,
    machine: Machine<M>,
    printing: Printing,
    refused: bool,
    output: &mut K,
) -> Status
    ensures { (count : ℕ) → Ended printing
        (ClosedBy (MachineStands M.under M.holds) (Closes M.conduct) machine) NeverTaken (ClosedOrNot (MachineStands M.under M.holds) (Closes M.conduct) machine) refused result
        (output_at (K.seen output.old) count)
        (output_at (K.seen output.new) count) }
{
    let Ok(answer) = machine.close(alloc) else {
        return Status::Memory;
    };
    let refuses = refused | answer.refuses();
    let text = answer.text_under(alloc, printing);
    drop(answer);
    let Ok(text) = text else {
        return Status::Memory;
    };
    let Ok(()) = put_all(output, text.as_bytes()) else {
        return Status::WriteFault;
    };
    match output.finish() {
        Ok(()) => {
            if refuses {
                Status::Refused
            } else {
                Status::Done
            }
        }
        Err(_) => Status::WriteFault,
    }
}
