//! An entry of a posting list, as bytes.
ghost use Rattle.std.specs.Prelude.{◌≡◌, ◌++◌};
ghost use Rattle.byteorder.specs.Endian.{big_bytes};

use byteorder::{BigEndian, ByteOrder};
use std::marker::Model;

/// An entry's eight bytes: the id and then the wdf, each with its most significant byte first.
pub fn entry_bytes(id: u32, wdf: u32) -> [u8; 8]
    ensures { result ≡ big_bytes 4 id ++ big_bytes 4 wdf }
{
    let mut bytes = [0; 8];
    BigEndian::write_u32(&mut bytes, id);
    BigEndian::write_u32(&mut bytes[4..], wdf);
    bytes
}

/// A document's id and the wdf there. A clause sees the two numbers that the bytes spell.
#[derive(Drop)]
pub(crate) struct Entry {
    bytes: [u8; 8],
}

impl Model for Entry {
    ghost use Rattle.std.specs.Prelude.{ℕ, drop};
    ghost use Rattle.byteorder.specs.Endian.{big_number};

    ghost Value = { ℕ × ℕ };

    ghost view = { λ e. (big_number 4 e.bytes, big_number 4 (drop 4 e.bytes)) };
}

impl Entry {
    /// The entry of this document.
    pub(crate) fn new(id: u32, wdf: u32) -> Entry
        ensures { result ≡ (id, wdf) }
    {
        Entry {
            bytes: entry_bytes(id, wdf),
        }
    }

    /// The same bytes.
    pub(crate) fn copy(&self) -> Entry
        ensures { result ≡ self.now }
    {
        Entry { bytes: self.bytes }
    }

    /// The document's id.
    pub(crate) fn id(&self) -> u32
        ensures { result ≡ self.now.0 }
    {
        BigEndian::read_u32(&self.bytes)
    }

    /// The wdf.
    pub(crate) fn wdf(&self) -> u32
        ensures { result ≡ self.now.1 }
    {
        BigEndian::read_u32(&self.bytes[4..])
    }
}
