//! The value that a line is read as.
ghost use Rattle.sk_record.specs.Lines.{IsRead, line_value};

use crate::LineFault;
use serde_json::Value;
use std::alloc::Global;

/// The value that a line is read as.
pub fn line_value(alloc: Global, line: &[u8]) -> Result<Value, LineFault>
    ensures { IsRead (line_value line.now) result }
{
    match Value::from_slice(alloc, line) {
        Ok(value) => Ok(value),
        Err(error) => {
            if error.is_memory() {
                Err(LineFault::NoMemory)
            } else {
                Err(LineFault::NotJson)
            }
        }
    }
}
