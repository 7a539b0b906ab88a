//! How a section is run, and what the program comes to.
use sk_engine::Status;
use std::alloc::{AllocError, Global};

/// A stream, each call of which is to fail in turn.
#[derive(Clone, Copy, Debug, PartialEq, Eq)]
pub enum Each {
    None,
    Input,
    Records,
    Output,
}

/// The words that the program is started with, how its streams give and take, and the number that it is to end with.
#[derive(Debug, Drop)]
pub struct Setting {
    /// `run` where there is none.
    pub words: Vec<String>,
    /// Why the arguments of the program were not read, where they were not.
    pub unread: Option<Status>,
    /// How many bytes a call gives or takes at the most.
    pub piece: usize,
    /// How many bytes the output takes.
    pub room: usize,
    /// Which call of the input fails, which of the records, and which of the output, counted from 1; none where it is 0.
    pub read: u64,
    pub records: u64,
    pub write: u64,
    pub each: Each,
    /// How often a line of the records stands there that comes behind what sets this.
    pub times: u64,
    /// None where the section does not say it.
    pub code: Option<u64>,
}

impl Setting {
    /// Streams that give and take all.
    pub fn new(alloc: Global) -> Setting {
        Setting {
            words: Vec::new(alloc),
            unread: None,
            piece: 65_536,
            room: 1 << 20,
            read: 0,
            records: 0,
            write: 0,
            each: Each::None,
            times: 1,
            code: None,
        }
    }

    /// Takes what a line sets, as `piece=3 read=1`, and answers whether all of it has a meaning.
    pub fn set(&mut self, alloc: Global, line: &str) -> Result<bool, AllocError> {
        for part in line.split(' ') {
            let Some((name, value)) = part.split_once("=") else {
                return Ok(false);
            };
            if name == "word" {
                self.words.push(String::from_str(alloc, value)?)?;
            } else if name == "each" {
                self.each = stream_named(value);
                if self.each == Each::None {
                    return Ok(false);
                }
            } else if !self.set_number(name, value) {
                return Ok(false);
            }
        }
        Ok(true)
    }

    fn set_number(&mut self, name: &str, value: &str) -> bool {
        let Some(number) = number_in(value) else {
            return false;
        };
        match name {
            "piece" => self.piece = number as usize,
            "room" => self.room = number as usize,
            "read" => self.read = number,
            "records" => self.records = number,
            "write" => self.write = number,
            "times" => self.times = number,
            "code" => self.code = Some(number),
            "unread" => {
                self.unread = unread(number);
                return self.unread.is_some();
            }
            _ => return false,
        }
        true
    }
}

/// The stream of a name: none under another.
fn stream_named(name: &str) -> Each {
    match name {
        "input" => Each::Input,
        "records" => Each::Records,
        "output" => Each::Output,
        _ => Each::None,
    }
}

/// The status of a program whose arguments were not read, by its number.
fn unread(code: u64) -> Option<Status> {
    match code {
        2 => Some(Status::Usage),
        5 => Some(Status::Memory),
        _ => None,
    }
}

/// The number that a text is.
pub fn number_in(text: &str) -> Option<u64> {
    text.parse::<u64>().ok()
}
