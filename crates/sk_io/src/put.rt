//! A piece put whole.
ghost use Rattle.std.specs.Prelude.{◌≡◌, ◌&&◌, ◌==◌, OnOk, OnErr, length};
ghost use Rattle.std.specs.Io.KnownBytes.{Appends};
ghost use Rattle.sk_io.specs.Causes.{HasCause};
ghost use Rattle.sk_io.specs.Fronts.{AppendsPrefix};

use crate::{Failed, Sink};

/// Puts the whole piece, in as many calls as the sink wants. It takes no memory.
pub fn put_all<K: Sink>(sink: &mut K, piece: &[u8]) -> Result<(), Failed>
    ensures ok { OnOk result (Appends (K.seen sink.old).held (K.seen sink.new).held piece.now) }
    ensures err { OnErr result (AppendsPrefix (K.seen sink.old).held (K.seen sink.new).held piece.now) }
    ensures settled { (K.seen sink.new).settled ≡ ((K.seen sink.old).settled && (length piece.now == 0)) }
    ensures finishes { (K.seen sink.new).finishes ≡ (K.seen sink.old).finishes }
    ensures cause { HasCause (K.seen sink.old).faults (K.seen sink.new).faults result }
{
    let mut rest = piece;
    'pieces: while !rest.is_empty() {
        let taken = sink.put(rest)?;
        rest = &rest[taken..];
    }
    Ok(())
}
