//! Reads lines of a word and the stem that it must have, and says which words have another.
#![tactic(auto)]

use sk_io::{Line, Lines, StdSource};
use sk_stem::porter;
use std::process::ExitCode;
use std::{io, str};

/// How many bytes of lines are read at the most.
const MOST_BYTES: u64 = 1 << 30;

fn main(rt: HostRuntime) -> io::Result<ExitCode> {
    let alloc = rt.alloc();
    let mut source = StdSource::new(rt.stdin());
    let mut lines = Lines::new(alloc, MOST_BYTES)?;
    let mut right = 0u64;
    let mut wrong = 0u64;
    for _ in 0..u64::MAX {
        let line = match lines.next(&mut source) {
            Ok(Some(Line::Whole(line))) => line,
            Ok(None) => break,
            _ => {
                eprintln!(rt; "the words cannot be read")?;
                return Ok(ExitCode::from(3));
            }
        };
        match pair(line) {
            Some((word, wanted)) => {
                let stem = porter(alloc, word)?;
                let given = stem.as_str();
                if given == wanted {
                    right = right.saturating_add(1);
                } else {
                    wrong = wrong.saturating_add(1);
                    println!(rt; "{word}: {given}, and not {wanted}")?;
                }
            }
            None => {
                wrong = wrong.saturating_add(1);
                println!(rt; "a line is no word with its stem")?;
            }
        }
    }
    println!(rt; "{right} words have the stems that are written beside them")?;
    Ok(ExitCode::from(u8::from(wrong > 0)))
}

/// The word and the stem of a line.
fn pair(line: &[u8]) -> Option<(&str, &str)> {
    str::from_utf8(line).ok()?.split_once(' ')
}
