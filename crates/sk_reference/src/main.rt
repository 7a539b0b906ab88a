//! Answers command lines by the definitions alone, slowly on purpose.
#![tactic(auto)]

mod flights;
mod flying;
mod search;
mod shelf;
mod store;

ghost use Rattle.std.specs.Prelude.{◌≡◌};

use shelf::Shelf;
use sk_io::{LazyFile, StdSink, StdSource};
use sk_run::{Status, arguments, path_of, start};
use std::alloc::{AllocError, Global};
use std::marker::Brand;
use std::process::ExitCode;
use std::sync::ledger::Blank;
use std::{env, io};

/// What is printed where the words are no form.
const USAGE: &[u8] = b"usage: sk_reference run | search FILE [and] | demo N";

fn main(rt: HostRuntime) -> io::Result<ExitCode> {
    let alloc = rt.alloc();
    let read = arguments(alloc, env::args(&rt));
    let (words, path) = match path_of(alloc, &read) {
        Ok(path) => (read, path),
        Err(AllocError) => (Err(Status::Memory), String::new(alloc)),
    };
    let code = start::<Shelf, _, _, _, _, _, Brand>(
        &rt,
        Blank::new(1),
        alloc,
        USAGE,
        words,
        &mut StdSource::new(rt.stdin()),
        &mut LazyFile::new(&rt, path),
        &mut StdSink::new(rt.stdout()),
        &mut StdSink::new(rt.stderr()),
    );
    Ok(ExitCode::from(code))
}
