//! A program: from its arguments to the number that it ends with.
ghost use Rattle.std.specs.Prelude.{◌≡◌};
ghost use Rattle.sk_run.specs.Started.{around, Started};
ghost use Rattle.sk_engine.specs.SessionRan.{SessionRan};

use crate::{Session, Status};
use sk_io::{Sink, Source};
use std::alloc::Global;
use std::rt::Env;
use std::sync::ledger::{Blank, Ledger};

/// Runs what the arguments of a program ask for, under a counter of its own, and answers the number that the
/// program ends with. Why a run did not come to its end is said on `errors`; `usage` is said of words that are no
/// form.
pub fn start<H: Env, S: Source, R: Source, K: Sink, E: Sink, L: Ledger>(
    host: &H,
    blank: Blank,
    alloc: Global,
    usage: &'static [u8],
    arguments: Result<Vec<String>, Status>,
    input: &mut S,
    records: &mut R,
    output: &mut K,
    errors: &mut E,
) -> u8
    requires name { blank.name ≡ L.name }
    requires parts { blank.parts ≡ L.parts }
    requires one { blank.parts ≡ 1 }
    ensures started { Started SessionRan usage.now arguments result
        (around (S.seen input.old) (R.seen records.old) (K.seen output.old))
        (around (S.seen input.new) (R.seen records.new) (K.seen output.new))
        (E.seen errors.old) (E.seen errors.new) }
{
    sk_run::start::<Session, _, _, _, _, _, L>(
        host, blank, alloc, usage, arguments, input, records, output, errors,
    )
}
