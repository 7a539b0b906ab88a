//! A program: from its arguments to the number that it ends with.
ghost use Rattle.std.specs.Prelude.{◌≡◌};
ghost use Rattle.sk_run.specs.Ran.{Ran};
ghost use Rattle.sk_run.specs.Started.{around, RanFrom, Started};

use crate::{Status, Store, conclude, run, words_of};
use sk_io::{Sink, Source};
use sk_steps::Steps;
use std::alloc::Global;
use std::rt::Env;
use std::sync::ledger::{Blank, Ledger};

/// Runs what the arguments of a program ask for, over a store of its own and under a counter of its own, and answers
/// the number that the program ends with. Why a run did not come to its end is said on `errors`; `usage` is said of
/// words that are no form.
pub fn start<M: Store, H: Env, S: Source, R: Source, K: Sink, E: Sink, L: Ledger>(
    host: &H,
    blank: Blank,
    alloc: Global,
    usage: &'static [u8],
    arguments: Result<Vec<String>, Status>,
    input: &mut S,
    records: &mut R,
    output: &mut K,
    errors: &mut E,
) -> u8
    requires name { blank.name ≡ L.name }
    requires parts { blank.parts ≡ L.parts }
    requires one { blank.parts ≡ 1 }
    ensures started { Started (Ran M.conduct) usage.now arguments result
        (around (S.seen input.old) (R.seen records.old) (K.seen output.old))
        (around (S.seen input.new) (R.seen records.new) (K.seen output.new))
        (E.seen errors.old) (E.seen errors.new) }
{
    let mut steps = Steps::<L>::open(host, blank);
    let status = status_of::<M, _, _, _, _>(alloc, arguments, input, records, output, &mut steps);
    conclude(status, usage, errors)
}

/// The status of a run, where the arguments were read.
fn status_of<M: Store, S: Source, R: Source, K: Sink, L: Ledger>(
    alloc: Global,
    arguments: Result<Vec<String>, Status>,
    input: &mut S,
    records: &mut R,
    output: &mut K,
    steps: &mut Steps<L>,
) -> Status
    requires { steps.old ≡ 0 }
    ensures ran { RanFrom (Ran M.conduct) arguments result
        (around (S.seen input.old) (R.seen records.old) (K.seen output.old))
        (around (S.seen input.new) (R.seen records.new) (K.seen output.new)) }
{
    match arguments {
        Ok(arguments) => run::<M, _, _, _, _>(
            alloc,
            words_of(arguments.as_slice()),
            input,
            records,
            output,
            steps,
        ),
        Err(status) => status,
    }
}
