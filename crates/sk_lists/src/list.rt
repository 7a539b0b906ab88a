//! A posting list: entries in order of their ids, in chunks.
ghost use Rattle.std.specs.Prelude.{◌≡◌, ◌≤◌, ◌<◌, [], length, get_or, true, IfOk, IsOk, OnOk, OnErr};
ghost use Rattle.sk_sorted.specs.Entries.{AreSorted, put, without, has, ids_of};
ghost use Rattle.sk_sorted.specs.Runs.{flat, AreRuns};
ghost use Rattle.sk_chunks.specs.Postings.{greatest_wdf};
ghost use Rattle.sk_lists.specs.Lists.{one_run};

use crate::directory::{Directory, FULL};
use sk_chunks::Chunk;
use std::alloc::{AllocError, Global};
use std::fmt::{Debug, Error, Formatter, Write};
use std::marker::Model;
use std::slice;

/// The entries of one term, one for each document that has it, with its wdf there, in chunks of up to 32. On a list
/// that is only lent, only a cursor or the counted reading of a chunk shows them; who copies it owns the copy's.
#[derive(Drop)]
pub struct List {
    alloc: Global,
    form: Form,
}

/// A short list is one chunk, without a vector of chunks.
#[derive(Drop)]
enum Form {
    One(Chunk),
    Many(Directory),
}

impl Model for List {
    ghost use Rattle.sk_lists.specs.Lists.{Runs};
    ghost use Rattle.sk_lists.specs.Forms.{runs_of};

    ghost Value = { Runs };

    ghost view = { λ l. runs_of l.form };
}

impl List {
    /// An empty list. It takes no memory.
    pub fn new(alloc: Global) -> List
        ensures { result ≡ [] }
    {
        List {
            alloc,
            form: Form::One(Chunk::new(alloc)),
        }
    }

    /// The same entries in the same chunks, in memory of their own. It is no reading: it shows none of them.
    pub fn copy(&self) -> Result<List, AllocError>
        ensures { IfOk result (λ copy. copy ≡ self.now) }
    {
        let form = match &self.form {
            Form::One(chunk) => Form::One(chunk.copy(self.alloc)?),
            Form::Many(directory) => Form::Many(directory.copy()?),
        };
        Ok(List {
            alloc: self.alloc,
            form,
        })
    }

    /// Gives the document this wdf. Only a new entry takes memory, and only entries of a few chunks move.
    pub fn insert(&mut self, id: u32, wdf: u32) -> Result<(), AllocError>
        requires { 1 ≤ id }
        ensures ok { OnOk result (flat self.new ≡ put id wdf (flat self.old)) }
        ensures err { OnErr result (self.new ≡ self.old) }
        ensures succeeds { has id (flat self.old) ≡ true → IsOk result }
    {
        match &mut self.form {
            Form::Many(directory) => directory.insert(id, wdf),
            Form::One(chunk) => {
                if chunk.count() == 0 {
                    *chunk = Chunk::one(self.alloc, id, wdf)?;
                    return Ok(());
                }
                if chunk.count() < FULL || chunk.has(id) {
                    return chunk.insert(id, wdf);
                }
                let mut directory = Directory::of(self.alloc, chunk)?;
                let done = directory.insert(id, wdf);
                self.form = Form::Many(directory);
                done
            }
        }
    }

    /// Takes the document's entry out, and answers whether there was one. It takes no memory.
    pub fn remove(&mut self, id: u32) -> bool
        ensures after { flat self.new ≡ without id (flat self.old) }
        ensures there { result ≡ has id (flat self.old) }
    {
        match &mut self.form {
            Form::Many(directory) => directory.remove(id),
            Form::One(chunk) => chunk.remove(id),
        }
    }

    /// How many documents have the term.
    pub fn length(&self) -> u32
        ensures value { result ≡ length (flat self.now) }
        ensures sound { AreSorted (flat self.now) }
        ensures runs { AreRuns self.now }
    {
        match &self.form {
            Form::Many(directory) => directory.length(),
            Form::One(chunk) => chunk.count(),
        }
    }

    /// The greatest wdf of an entry, 0 where there is none. It is kept, so nothing is read.
    pub fn greatest(&self) -> u32
        ensures { result ≡ greatest_wdf (flat self.now) }
    {
        match &self.form {
            Form::Many(directory) => directory.greatest(),
            Form::One(chunk) => chunk.greatest(),
        }
    }

    /// The chunks, looked up once for all that is asked of them.
    pub fn as_slice(&self) -> &[Chunk]
        ensures value { result.now ≡ self.now }
        ensures sound { AreRuns self.now }
    {
        match &self.form {
            Form::Many(directory) => directory.chunks(),
            Form::One(chunk) => {
                let count = if chunk.count() == 0 { 0 } else { 1 };
                &slice::from_ref(chunk)[..count]
            }
        }
    }

    /// How many chunks there are.
    pub fn chunks(&self) -> usize
        ensures value { result ≡ length self.now }
        ensures sound { AreRuns self.now }
    {
        match &self.form {
            Form::Many(directory) => directory.chunks().len(),
            Form::One(chunk) => if chunk.count() == 0 { 0 } else { 1 },
        }
    }

    /// The chunk with this number, from 0.
    pub fn chunk(&self, i: usize) -> &Chunk
        requires { i < length self.now }
        ensures { result.now ≡ get_or self.now i [] }
    {
        match &self.form {
            Form::Many(directory) => &directory.chunks()[i],
            Form::One(chunk) => chunk,
        }
    }

    /// The ids of all entries, for one who changes the list. It is no reading: a shared reference to a list does not show
    /// them.
    pub fn ids(&mut self, alloc: Global) -> Result<Vec<u32>, AllocError>
        ensures ok { IfOk result (λ ids. ids.items ≡ ids_of (flat self.old)) }
        ensures same { self.new ≡ self.old }
    {
        let ids = Vec::new(alloc);
        match &mut self.form {
            Form::Many(directory) => directory.put_ids(ids),
            Form::One(chunk) => chunk.put_ids(ids),
        }
    }
}

impl Debug for List {
    fn fmt<W: Write>(&self, f: &mut Formatter<W>) -> Result<(), Error> {
        write!(f, "List of {}", self.length())
    }
}
