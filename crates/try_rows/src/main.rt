//! Runs sections of command lines, and compares what they are answered with the answers that are written beside them.
#![tactic(auto)]

ghost use Rattle.std.specs.Prelude.{◌≡◌};

mod pattern;
mod section;
mod setting;

use section::{Ran, Section, Verdict};
use sk_io::{Line, Lines, StdSource};
use std::alloc::{AllocError, Global};
use std::io;
use std::marker::Brand;
use std::process::ExitCode;
use std::rt::Env;
use std::sync::ledger::Blank;

/// How many bytes of sections are read at the most.
const MOST_BYTES: u64 = 1 << 30;

fn main(rt: HostRuntime) -> io::Result<ExitCode> {
    let alloc = rt.alloc();
    let mut source = StdSource::new(rt.stdin());
    let mut lines = Lines::new(alloc, MOST_BYTES)?;
    let mut section = Section::new(alloc)?;
    let mut rows = 0u64;
    let mut differing = 0u64;
    for _ in 0..u64::MAX {
        let line = match lines.next(&mut source) {
            Ok(Some(Line::Whole(line))) => Some(line),
            Ok(None) => None,
            _ => {
                eprintln!(rt; "the sections cannot be read")?;
                return Ok(ExitCode::from(3));
            }
        };
        if line.is_none_or(section::is_title) {
            rows = rows.saturating_add(section.rows());
            if differs(&rt, &section, alloc)? {
                differing = differing.saturating_add(1);
            }
            section = Section::new(alloc)?;
        }
        match line {
            Some(line) => section.add(alloc, line)?,
            None => break,
        }
    }
    if differing == 0 {
        println!(rt; "{rows} lines are answered as it is written")?;
        return Ok(ExitCode::SUCCESS);
    }
    println!(rt; "{differing} sections differ")?;
    Ok(ExitCode::FAILURE)
}

/// Whether a section is answered otherwise than it is written, which is printed.
fn differs(rt: &HostRuntime, section: &Section, alloc: Global) -> io::Result<bool> {
    let Some((turn, ran)) = differing_run(rt, section, alloc)? else {
        return Ok(false);
    };
    let title = section.title();
    let answered = ran.answered.as_str();
    let said = ran.said.as_str();
    let code = ran.code;
    println!(rt; "differs: {title}\n{answered}{said}ended with {code} in turn {turn}")?;
    Ok(true)
}

/// The first run of a section that is not as it should be, with its turn.
fn differing_run<R: Env>(
    rt: &R,
    section: &Section,
    alloc: Global,
) -> Result<Option<(u64, Ran)>, AllocError> {
    let mut whole = String::new(alloc);
    for turn in 0..u64::MAX {
        let ran = section.run::<_, Brand>(rt, Blank::new(1), alloc, turn)?;
        match section.verdict(&ran, turn, whole.as_str()) {
            Verdict::Fits => return Ok(None),
            Verdict::GoesOn if turn == 0 => whole = ran.answered,
            Verdict::GoesOn => {}
            Verdict::Differs => return Ok(Some((turn, ran))),
        }
    }
    Ok(None)
}
