//! Where bytes go.
ghost use Rattle.std.specs.Prelude.{◌≡◌, ◌<◌, false, IfOk, is_ok, length};
ghost use Rattle.std.specs.Io.{WritesAtMost};
ghost use Rattle.std.specs.Io.KnownBytes.{Keeps, WriteAppends};
ghost use Rattle.sk_io.specs.Causes.{counted, HasCause};
ghost use Rattle.sk_io.specs.Seen.{Taken};

use crate::Failed;

/// Takes bytes in pieces. `finish` sees that what was taken is where it belongs.
pub trait Sink {
    // What is seen of it.
    ghost seen: { Self → Taken };

    /// Takes a front of `piece`, and answers how many bytes that was.
    fn put(&mut self, piece: &[u8]) -> Result<usize, Failed>
        ensures bound { WritesAtMost result piece.now }
        ensures some { IfOk result (λ n. 0 < length piece.now → 0 < n) }
        ensures bytes { WriteAppends (seen self.old).held (seen self.new).held result piece.now }
        ensures settled { (seen self.new).settled ≡ false }
        ensures finishes { (seen self.new).finishes ≡ (seen self.old).finishes }
        ensures cause { HasCause (seen self.old).faults (seen self.new).faults result };

    /// Sends on what was taken and is not yet where it belongs.
    fn finish(&mut self) -> Result<(), Failed>
        ensures bytes { Keeps (seen self.old).held (seen self.new).held }
        ensures settled { (seen self.new).settled ≡ is_ok result }
        ensures finishes { (seen self.new).finishes ≡ counted (seen self.old).finishes }
        ensures cause { HasCause (seen self.old).faults (seen self.new).faults result };
}
