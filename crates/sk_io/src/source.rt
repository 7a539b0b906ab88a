//! Where bytes come from.
ghost use Rattle.std.specs.Prelude.{◌<◌, length};
ghost use Rattle.std.specs.Io.{ReadsAtMost};
ghost use Rattle.std.specs.Io.KnownBytes.{ReadConsumes};
ghost use Rattle.sk_io.specs.Causes.{HasCause};
ghost use Rattle.sk_io.specs.Seen.{Seen};

use crate::Failed;

/// Bytes that come in pieces. 0 bytes are given only at the end.
pub trait Source {
    // What is seen of it.
    ghost seen: { Self → Seen };

    /// Writes some of the bytes still to come to the front of `buf`, and answers how many.
    fn take(&mut self, buf: &mut [u8]) -> Result<usize, Failed>
        requires { 0 < length buf.old }
        ensures bound { ReadsAtMost result buf.new }
        ensures bytes { ReadConsumes (seen self.old).left (seen self.new).left result buf.new }
        ensures cause { HasCause (seen self.old).faults (seen self.new).faults result };
}
