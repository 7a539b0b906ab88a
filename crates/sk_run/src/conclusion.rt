//! What is said of a run at its end.
ghost use Rattle.std.specs.Prelude.{◌≡◌, ◌∷◌, ◌++◌, [], true, OnOk, OnErr};
ghost use Rattle.std.specs.Io.KnownBytes.{Appends};
ghost use Rattle.sk_io.specs.Causes.{HasCause};
ghost use Rattle.sk_io.specs.Fronts.{AppendsPrefix};
ghost use Rattle.sk_run.specs.Statuses.{code_of, message_of};
ghost use Rattle.sk_run.specs.Conclusions.{Says, Settles};

use crate::Status;
use sk_io::{Failed, Sink, put_all};

/// Says on `errors` why a run did not come to its end, where it did not, and answers the number that the process ends
/// with. `usage` is said of words that are no form. Where the line can't be put, the number tells all the same.
pub fn conclude<E: Sink>(status: Status, usage: &'static [u8], errors: &mut E) -> u8
    ensures code { result ≡ code_of status }
    ensures says { Says usage.now status (E.seen errors.old) (E.seen errors.new) }
    ensures settles { Settles (message_of usage.now status) (E.seen errors.old) (E.seen errors.new) }
{
    if let Some(message) = status.message(usage) {
        let _ = say(errors, message);
    }
    status.code()
}

/// Puts the message as a line.
fn say<E: Sink>(errors: &mut E, message: &[u8]) -> Result<(), Failed>
    ensures ok { OnOk result (Appends (E.seen errors.old).held (E.seen errors.new).held (message.now ++ 10 ∷ [])) }
    ensures err { OnErr result (AppendsPrefix (E.seen errors.old).held (E.seen errors.new).held (message.now ++ 10 ∷ [])) }
    ensures settled { OnOk result ((E.seen errors.new).settled ≡ true) }
    ensures cause { HasCause (E.seen errors.old).faults (E.seen errors.new).faults result }
{
    put_all(errors, message)?;
    put_all(errors, b"\n")?;
    errors.finish()
}
