//! A value of a slot, as it is kept.
ghost use Rattle.std.specs.Prelude.{◌≡◌, IfOk, IfSome};
ghost use Rattle.sk_values.specs.Numbers.{IsNumber};

use sk_base::{Bytes, DocId};
use std::alloc::{AllocError, Global};
use std::marker::Model;
use std::mem;

/// So many bytes stand in the value itself.
const SHORT: usize = 8;

/// An entry of a list is small.
const _: () = prove!(mem::size_of::<(DocId, Value)>() <= 24);

/// A value, made ready to be put into a list. Contracts see it as the list of its bytes, wherever they stand.
#[derive(Drop)]
pub struct Value {
    held: Held,
}

/// Up to eight bytes stand here, so that who reads an entry reads no other memory; more have memory of their own, behind a
/// box, so that they make no entry longer.
#[derive(Drop)]
enum Held {
    /// Eight bytes, as each number has.
    Number([u8; SHORT]),
    /// Fewer: the first `length` of `bytes`. The others say nothing.
    Short { bytes: [u8; SHORT], length: u8 },
    Long(Box<Bytes>),
}

impl Model for Value {
    ghost use Rattle.std.specs.Prelude.{List, ℕ};

    ghost Value = { List ℕ };

    ghost use Rattle.sk_values.specs.Held.{held_bytes, IsHeld};

    ghost view = { λ v. held_bytes v.held };

    ghost invariant = { λ v. IsHeld v.held };
}

impl Value {
    /// A value of these bytes. Only more than eight take memory.
    pub fn new(alloc: Global, value: Bytes) -> Result<Value, AllocError>
        ensures { IfOk result (λ kept. kept ≡ value) }
    {
        let given = value.as_slice();
        if given.len() > SHORT {
            return Ok(Value {
                held: Held::Long(Box::new(alloc, value)?),
            });
        }
        if let Ok(bytes) = given.try_into() {
            return Ok(Value {
                held: Held::Number(bytes),
            });
        }
        let mut bytes = [0; SHORT];
        bytes[..given.len()].copy_from_slice(given);
        let length = given.len() as u8;
        Ok(Value {
            held: Held::Short { bytes, length },
        })
    }

    /// The same bytes. Only those that do not stand in the value take memory.
    pub(crate) fn copy(&self, alloc: Global) -> Result<Value, AllocError>
        ensures { IfOk result (λ copy. copy ≡ self.now) }
    {
        match &self.held {
            Held::Number(bytes) => Ok(Value {
                held: Held::Number(*bytes),
            }),
            Held::Short { bytes, length } => Ok(Value {
                held: Held::Short {
                    bytes: *bytes,
                    length: *length,
                },
            }),
            Held::Long(bytes) => Value::new(alloc, Bytes::new(alloc, bytes.as_slice())?),
        }
    }

    #[inline]
    pub(crate) fn as_slice(&self) -> &[u8]
        ensures { result.now ≡ self.now }
    {
        match &self.held {
            Held::Number(bytes) => bytes,
            Held::Short { bytes, length } => &bytes[..*length as usize],
            Held::Long(bytes) => bytes.as_slice(),
        }
    }

    /// The number of eight bytes, the highest of them first; none of fewer or more.
    #[inline]
    pub(crate) fn number(&self) -> Option<u64>
        ensures { IfSome result (λ n. IsNumber n self.now) }
    {
        match &self.held {
            Held::Number(bytes) => Some(number(bytes)),
            _ => None,
        }
    }
}

/// The number of these bytes, the highest of them first.
#[inline]
fn number(bytes: &[u8; SHORT]) -> u64
    ensures { IsNumber result bytes.now }
{
    u64::from_be_bytes(*bytes)
}
