//! From the arguments of a program to its words.
ghost use Rattle.std.specs.Prelude.{◌≡◌, drop, IfOk, IfErr, IsErr, string_bytes};
ghost use Rattle.sk_run.specs.declared.status.Status.TheVariants as Status;
ghost use Rattle.std.specs.IoError.{error_kind};
ghost use Rattle.sk_run.specs.Forms.{status_for, second_word, path_named};

use crate::Status;
use std::alloc::{AllocError, Global};
use std::env::Args;
use std::io;

/// The arguments of a program, where they were read. Arguments that are not UTF-8 are none of the forms.
pub fn arguments(alloc: Global, args: io::Result<Args>) -> Result<Vec<String>, Status>
    ensures words { IfOk args (λ all. IfOk result (λ words. words.items ≡ all.rest.items)) }
    ensures wanting { IfOk args (λ all. IfErr result (λ status. status ≡ Status.Memory)) }
    ensures unread { IfErr args (λ error. IfErr result (λ status. status ≡ status_for (error_kind error))) }
    ensures refused { IfErr args (λ error. IsErr result) }
{
    match args {
        Ok(all) => match collected(alloc, all) {
            Ok(words) => Ok(words),
            Err(_) => Err(Status::Memory),
        },
        Err(error) => { Err(status_for(error.kind())) }
    }
}

/// The status of a run whose arguments were not read.
fn status_for(kind: io::ErrorKind) -> Status
    ensures { result ≡ status_for kind }
{
    match kind {
        io::ErrorKind::OutOfMemory => Status::Memory,
        _ => Status::Usage,
    }
}

/// All that the iterator gives.
fn collected(alloc: Global, args: Args) -> Result<Vec<String>, AllocError>
    ensures { IfOk result (λ words. words.items ≡ args.rest.items) }
{
    let mut words = Vec::new(alloc);
    'words: for word in args {
        words.push(word)?;
    }
    Ok(words)
}

/// The words behind the program's name, which is the first argument.
pub fn words_of(arguments: &[String]) -> &[String]
    ensures { result.now ≡ drop 1 arguments.now }
{
    match arguments {
        [_, words @ ..] => words,
        [] => arguments,
    }
}

/// The second of the words, which is the path of a search: empty where there is none, or the arguments were not read.
pub fn path_of(alloc: Global, arguments: &Result<Vec<String>, Status>) -> Result<String, AllocError>
    ensures { IfOk result (λ path. string_bytes path ≡ path_named arguments.now) }
{
    match arguments {
        Ok(words) => second_word(alloc, words_of(words.as_slice())),
        Err(_) => Ok(String::new(alloc)),
    }
}

/// The second of these, or nothing.
fn second_word(alloc: Global, words: &[String]) -> Result<String, AllocError>
    ensures { IfOk result (λ word. string_bytes word ≡ second_word words.now) }
{
    match words {
        [_, word, ..] => String::from_str(alloc, word.as_str()),
        _ => Ok(String::new(alloc)),
    }
}
