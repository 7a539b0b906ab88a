//! A source over a file that is opened when it is read.
ghost use Rattle.std.specs.Prelude.{◌≡◌, ◌<◌, None, length};
ghost use Rattle.std.specs.Io.{ReadsAtMost};
ghost use Rattle.std.specs.Io.KnownBytes.{ReadConsumes};
ghost use Rattle.sk_io.specs.Causes.{HasCause};
ghost use Rattle.sk_io.specs.Files.{file_faults, file_path};

use crate::standard::read_some;
use crate::{Failed, Source};
use std::fs;
use std::rt::Files;

/// What is known of a file.
#[derive(Drop)]
enum Opened<F: Drop> {
    /// Nothing: it was not asked for as yet.
    NotYet,
    Open(F),
    Refused,
}

/// A source over the file at a path, which is opened at the first `take`. A refused opening is a fault, and each
/// `take` behind it is one more. It tells nothing but its faults.
#[derive(Drop)]
pub struct LazyFile<'a, R: Files> {
    rt: &'a R,
    path: String,
    opened: Opened<R::File>,
    failed: u64,
}

impl<'a, R: Files> LazyFile<'a, R> {
    /// A source that has not failed. Nothing is opened.
    pub fn new(rt: &'a R, path: String) -> LazyFile<'a, R>
        ensures path { file_path result ≡ path }
        ensures faults { file_faults result ≡ 0 }
    {
        LazyFile {
            rt,
            path,
            opened: Opened::NotYet,
            failed: 0,
        }
    }

    /// Opens the file where that was not tried before.
    fn open(&mut self)
        ensures path { file_path self.new ≡ file_path self.old }
        ensures faults { file_faults self.new ≡ file_faults self.old }
    {
        if let Opened::NotYet = self.opened {
            self.opened = match fs::open(self.rt, self.path.as_str()) {
                Ok(file) => Opened::Open(file),
                Err(_) => Opened::Refused,
            };
        }
    }
}

/// Some bytes of a file that is open.
fn read_opened<F: std::io::Read + Drop>(
    opened: &mut Opened<F>,
    buf: &mut [u8],
) -> Result<usize, Failed>
    ensures { ReadsAtMost result buf.new }
{
    match opened {
        Opened::Open(file) => {
            let n = read_some(file, buf)?;
            Ok(n)
        }
        _ => Err(Failed),
    }
}

impl<'a, R: Files> Source for LazyFile<'a, R> {
    ghost seen = { λ s. record { left = None; faults = file_faults s } };

    fn take(&mut self, buf: &mut [u8]) -> Result<usize, Failed> {
        self.open();
        let result = read_opened(&mut self.opened, buf);
        if result.is_err() {
            self.failed = self.failed.saturating_add(1);
        }
        result
    }
}
