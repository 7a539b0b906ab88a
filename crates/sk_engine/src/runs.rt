//! The run by the words of a program.
ghost use Rattle.std.specs.Prelude.{◌≡◌, map, string_bytes};
ghost use Rattle.sk_run.specs.declared.form.Form.{Form};
ghost use Rattle.sk_run.specs.declared.status.Status.TheVariants as Status;
ghost use Rattle.sk_run.specs.Outsides.{outside_at};
ghost use Rattle.sk_engine.specs.SessionRan.{SessionRan, ReadingsTold};

use crate::{Session, Status};
use sk_io::{Sink, Source};
use sk_run::readings_are_told;
use sk_steps::Steps;
use std::alloc::Global;
use std::sync::ledger::Ledger;

/// Does what the words ask for. `run`: each line of `input` is a command, and is answered on `output` before more of it
/// is asked for. `search FILE`, with `and` behind it or not: each line of `records` is a command, and then each line of
/// `input` a query text. `demo N`: the commands of a demonstration with N documents. What is not named is not touched.
pub fn run<S: Source, R: Source, K: Sink, L: Ledger>(
    alloc: Global,
    words: &[String],
    input: &mut S,
    records: &mut R,
    output: &mut K,
    steps: &mut Steps<L>,
) -> Status
    // The main theorem: `Ran` of `sk_run`, over what a session may answer (`SessionRan`), says what each status
    // means, and what was read, put, settled and counted by then.
    ensures ran { SessionRan (map string_bytes words.now) result
        (outside_at (S.seen input.old) (R.seen records.old) (K.seen output.old) steps.old)
        (outside_at (S.seen input.new) (R.seen records.new) (K.seen output.new) steps.new) }

    // Each reading is told once.
    ensures told { (form : Form) → ReadingsTold form result
        (outside_at (S.seen input.old) (R.seen records.old) (K.seen output.old) steps.old)
        (outside_at (S.seen input.new) (R.seen records.new) (K.seen output.new) steps.new) }

    // Words that are no form touch nothing.
    ensures untouched { result ≡ Status.Usage → (input.new ≡ input.old) × (records.new ≡ records.old) × (output.new ≡ output.old) }
{
    readings_are_told::<Session>();
    sk_run::run::<Session, _, _, _, _>(alloc, words, input, records, output, steps)
}
