//! Answers that wait to be put.
ghost use Rattle.std.specs.Prelude.{◌≡◌, ℕ, ◌++◌, [], false, IfOk, IsOk, OnOk, OnErr};
ghost use Rattle.std.specs.Io.KnownBytes.{Appends};
ghost use Rattle.sk_io.specs.Causes.{HasCause};
ghost use Rattle.sk_io.specs.Fronts.{AppendsPrefix};
ghost use Rattle.sk_run.specs.declared.status.Status.TheVariants as Status;
ghost use Rattle.sk_run.specs.Outsides.{output_at};
ghost use Rattle.sk_run.specs.Waiting.{MovesOut, PutsLast};

use crate::Status;
use sk_io::{Failed, Sink, put_all};
use std::alloc::{AllocError, Global};
use std::marker::Model;

/// How many bytes may wait.
const BOUND: usize = 64 * 1024;

/// The texts of answers that are not put as yet.
#[derive(Drop)]
pub(crate) struct Waiting {
    bytes: Vec<u8>,
}

impl Model for Waiting {
    ghost use Rattle.std.specs.Prelude.{◌≤◌, ℕ, List, length, vec_capacity};
    ghost use Rattle.sk_run.specs.declared.waiting.TheConstants.{BOUND};

    ghost Value = { List ℕ };

    ghost view = { λ w. w.bytes.items };

    ghost invariant = { λ w. (length w.bytes.items ≤ BOUND) × (BOUND ≤ vec_capacity w.bytes) };
}

impl Waiting {
    /// Nothing waits. All the memory that it needs is taken here.
    pub(crate) fn new(alloc: Global) -> Result<Waiting, AllocError>
        ensures { IfOk result (λ waiting. waiting ≡ []) }
    {
        let bytes = Vec::with_capacity(alloc, BOUND)?;
        Ok(Waiting { bytes })
    }

    /// Puts all that waits. Where nothing waits the sink is not asked.
    pub(crate) fn put<K: Sink>(&mut self, output: &mut K) -> Result<(), Failed>
        ensures empty { OnOk result (self.new ≡ []) }
        ensures ok { OnOk result (Appends (K.seen output.old).held (K.seen output.new).held self.old) }
        ensures err { OnErr result (AppendsPrefix (K.seen output.old).held (K.seen output.new).held self.old) }
        ensures none { self.old ≡ [] → IsOk result }
        ensures finishes { (K.seen output.new).finishes ≡ (K.seen output.old).finishes }
        ensures cause { HasCause (K.seen output.old).faults (K.seen output.new).faults result }
    {
        if self.bytes.is_empty() {
            return Ok(());
        }
        put_all(output, self.bytes.as_slice())?;
        self.bytes.clear();
        Ok(())
    }

    /// Puts all that waits, unless it may stay.
    pub(crate) fn put_unless<K: Sink>(&mut self, stays: bool, output: &mut K) -> Result<(), Failed>
        ensures empty { OnOk result (stays ≡ false → self.new ≡ []) }
        ensures ok { OnOk result (MovesOut self.old self.new (K.seen output.old).held (K.seen output.new).held) }
        ensures err { OnErr result (AppendsPrefix (K.seen output.old).held (K.seen output.new).held self.old) }
        ensures finishes { (K.seen output.new).finishes ≡ (K.seen output.old).finishes }
        ensures cause { HasCause (K.seen output.old).faults (K.seen output.new).faults result }
    {
        if stays {
            return Ok(());
        }
        self.put(output)
    }

    /// The text waits behind the others, which are put first where it has no room beside them. One that has no room
    /// alone is put at once.
    pub(crate) fn join<K: Sink>(&mut self, text: &[u8], output: &mut K) -> Result<(), Failed>
        ensures ok { OnOk result (MovesOut (self.old ++ text.now) self.new (K.seen output.old).held (K.seen output.new).held) }
        ensures err { OnErr result (AppendsPrefix (K.seen output.old).held (K.seen output.new).held (self.old ++ text.now)) }
        ensures finishes { (K.seen output.new).finishes ≡ (K.seen output.old).finishes }
        ensures cause { HasCause (K.seen output.old).faults (K.seen output.new).faults result }
    {
        if text.len() > BOUND {
            self.put(output)?;
            return put_all(output, text);
        }
        let fits = text.len() <= BOUND - self.bytes.len();
        self.put_unless(fits, output)?;
        match self.bytes.extend_from_slice(text) {
            Ok(()) => Ok(()),
            Err(AllocError) => unreachable!(),
        }
    }

    /// Puts all that waits where memory ran out, and tells how the run ends.
    pub(crate) fn put_last<K: Sink>(&mut self, output: &mut K) -> Status
        ensures last { (count : ℕ) → PutsLast self.old result
            (output_at (K.seen output.old) count)
            (output_at (K.seen output.new) count) }
        ensures none { self.old ≡ [] → result ≡ Status.Memory }
    {
        match self.put(output) {
            Ok(()) => Status::Memory,
            Err(Failed) => Status::WriteFault,
        }
    }
}
