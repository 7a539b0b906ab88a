//! How lines and answers are written in a section.
use crate::setting::number_in;
use std::alloc::AllocError;
use std::str;

/// A line that is written, and how many bytes the input and the records have up to the end of the line that it answers.
#[derive(Debug, Drop)]
pub struct Wanted {
    pub line: String,
    pub input: usize,
    pub records: usize,
}

/// Whether the lines of a text are those that are written, and no others, where so many bytes of the input and of the
/// records were taken.
pub fn fits(wanted: &[Wanted], input: usize, records: usize, answered: &str) -> bool {
    let mut lines = answered.lines();
    for want in wanted {
        if want.input <= input && want.records <= records {
            match lines.next() {
                Some(line) => {
                    if !line_fits(want.line.as_str(), line) {
                        return false;
                    }
                }
                None => return false,
            }
        }
    }
    lines.next().is_none()
}

/// Whether a line is the one that is written, word by word. A word that ends in `<=` and a number fits one that ends in
/// `=` and a number that is no greater, one in `>=` a number that is no less, and one in `=*` any: how many readings a
/// find makes, and what it tells of the number of matches, is only bounded.
fn line_fits(want: &str, line: &str) -> bool {
    let mut words = line.split(" ");
    for want in want.split(" ") {
        match words.next() {
            Some(word) => {
                if !word_fits(want, word) {
                    return false;
                }
            }
            None => return false,
        }
    }
    words.next().is_none()
}

fn word_fits(want: &str, word: &str) -> bool {
    if want == word {
        return true;
    }
    let Some((name, number)) = word.split_once("=") else {
        return false;
    };
    if let Some((start, most)) = want.split_once("<=") {
        return start == name && is_at_most(number, most);
    }
    if let Some((start, least)) = want.split_once(">=") {
        return start == name && is_at_most(least, number);
    }
    want.strip_suffix("=*").is_some_and(|start| start == name)
}

fn is_at_most(number: &str, most: &str) -> bool {
    let Some(number) = number_in(number) else {
        return false;
    };
    number_in(most).is_some_and(|most| number <= most)
}

/// Puts a line. `<<N*B>>` in it stands for bytes N times, B being their numbers, each in two hexadecimal digits.
pub fn put_expanded(to: &mut Vec<u8>, line: &[u8]) -> Result<(), AllocError> {
    match repeated(line) {
        Some((front, count, digits, back)) => {
            to.extend_from_slice(front)?;
            for _ in 0..count {
                put_bytes(to, digits)?;
            }
            to.extend_from_slice(back)?;
        }
        None => to.extend_from_slice(line)?,
    }
    Ok(())
}

/// What stands before repeated bytes, how often which, and what stands behind them.
fn repeated(line: &[u8]) -> Option<(&[u8], usize, &[u8], &[u8])> {
    let line = str::from_utf8(line).ok()?;
    let (front, rest) = line.split_once("<<")?;
    let (inner, back) = rest.split_once(">>")?;
    let (count, digits) = inner.split_once("*")?;
    let count = count.parse::<usize>().ok()?;
    Some((front.as_bytes(), count, digits.as_bytes(), back.as_bytes()))
}

/// Puts the bytes of these digits, two for each.
fn put_bytes(to: &mut Vec<u8>, digits: &[u8]) -> Result<(), AllocError> {
    for two in digits.chunks(2) {
        if let Some(byte) = byte_of(two) {
            to.push(byte)?;
        }
    }
    Ok(())
}

fn byte_of(digits: &[u8]) -> Option<u8> {
    let digits = str::from_utf8(digits).ok()?;
    u8::from_str_radix(digits, 16).ok()
}
