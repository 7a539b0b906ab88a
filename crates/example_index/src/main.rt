//! An index by itself: `example_index WORD TEXT ..` takes each text as a document, and prints those that have the word,
//! each with how often the word stands in it, most first.
#![tactic(auto)]

ghost use Rattle.std.specs.Prelude.{◌≡◌, ◌++◌, map, IfOk, IsPermutation};
ghost use Rattle.std.specs.List.Sorted.{IsSorted};
ghost use Rattle.sk_base.specs.Records.{FitsEdit};
ghost use Rattle.sk_sorted.specs.Runs.{flat};
ghost use Rattle.sk_model.specs.Edits.{edited};
ghost use Rattle.sk_index.specs.Indexed.{postings};
ghost use Rattle.example_index.specs.Example.{bodies, addition, hit_of, by_weight};

use anyhow::{Result, bail, ensure};
use sk_base::{
    DocId, Edit, Entry, Field, FieldKind, FieldValue, Items, MOST_TEXT, Record, Schema, Text,
};
use sk_chunks::Chunk;
use sk_index::Index;
use sk_lists::List;
use sk_steps::Steps;
use sk_text::words;
use std::alloc::{AllocError, Global};
use std::cmp::Reverse;
use std::env;
use std::env::Args;
use std::iter::Skip;
use std::marker::Brand;
use std::rt::Env;
use std::sync::ledger::{Blank, Ledger};

/// A document that has the word, and how often. They are in the order of an answer: the heaviest first, and of two that
/// weigh the same the one that came first.
#[derive(Clone, Copy, Debug, PartialEq, Eq, PartialOrd, Ord)]
pub struct Hit {
    pub weight: Reverse<u32>,
    pub id: DocId,
}

/// One text, whose words count once, and are not stemmed.
fn schema(alloc: Global) -> Result<Schema, AllocError>
    ensures { IfOk result (λ schema. schema ≡ bodies) }
{
    let mut fields = Vec::new(alloc);
    fields.push(Field {
        name: Text::new(alloc, "body")?,
        kind: FieldKind::Text(Text::empty(alloc), 1),
    })?;
    match Schema::check(fields, false) {
        Some(schema) => Ok(schema),
        None => unreachable!(),
    }
}

/// The edit that adds a document of this text, which is kept with it.
fn addition(alloc: Global, schema: &Schema, text: &str) -> Result<Edit>
    ensures fits { IfOk result (λ edit. FitsEdit schema.now edit) }
    ensures value { IfOk result (λ edit. edit ≡ addition text.now) }
{
    let mut values = Items::new(alloc);
    values.push(Entry {
        field: 0,
        value: FieldValue::Text(Text::new(alloc, text)?),
    })?;
    let payload = Text::new(alloc, text)?;
    let edit = Edit::Add(Record { values, payload });
    ensure!(edit.fits(schema), "a text is too long");
    Ok(edit)
}

/// The index with one more document. Where that fails the index is given up.
fn with(alloc: Global, index: Index, text: &str) -> Result<Index>
    requires { index.schema ≡ bodies }
    ensures schema { IfOk result (λ more. more.schema ≡ bodies) }
    ensures live { IfOk result (λ more. more.live ≡ edited bodies index.live (addition text.now)) }
{
    match addition(alloc, index.schema(), text) {
        Ok(edit) => {
            let (index, _reply) = index.apply(edit)?;
            Ok(index)
        }
        Err(error) => {
            drop(index);
            Err(error)
        }
    }
}

/// An index of these texts, in order.
fn index_of(alloc: Global, texts: Skip<Args>) -> Result<Index> {
    let mut index = Index::new(alloc, schema(alloc)?)?;
    'texts: for text in texts {
        index = with(alloc, index, text.as_str())?;
    }
    Ok(index)
}

/// The hits, and those of a chunk behind them.
fn with_chunk<L: Ledger>(
    hits: Vec<Hit>,
    chunk: &Chunk,
    steps: &mut Steps<L>,
) -> Result<Vec<Hit>, AllocError>
    ensures { IfOk result (λ more. more.items ≡ hits.items ++ map hit_of chunk.now) }
{
    let mut hits = hits;
    'entries: for at in 0..chunk.count() {
        let (id, wdf) = chunk.entry(at, steps);
        hits.push(Hit {
            weight: Reverse(wdf),
            id,
        })?;
    }
    Ok(hits)
}

/// The hits of a list, in its order.
fn hits_of<L: Ledger>(
    alloc: Global,
    list: &List,
    steps: &mut Steps<L>,
) -> Result<Vec<Hit>, AllocError>
    ensures { IfOk result (λ hits. hits.items ≡ map hit_of (flat list.now)) }
{
    let mut hits = Vec::new(alloc);
    'chunks: for at in 0..list.chunks() {
        hits = with_chunk(hits, list.chunk(at), steps)?;
    }
    Ok(hits)
}

/// The documents that have the word, in the order of an answer.
fn ranked<R: Env, L: Ledger>(
    rt: &R,
    blank: Blank,
    alloc: Global,
    index: &Index,
    word: &[u8],
) -> Result<Vec<Hit>, AllocError>
    requires name { blank.name ≡ L.name }
    requires parts { blank.parts ≡ L.parts }
    requires one { blank.parts ≡ 1 }
    ensures all { IfOk result (λ hits. IsPermutation (map hit_of (postings word.now index.now.live.documents)) hits.items) }
    ensures order { IfOk result (λ hits. IsSorted by_weight hits.items) }
{
    let Some(number) = index.number_of(word) else {
        return Ok(Vec::new(alloc));
    };
    let mut steps = Steps::<L>::open(rt, blank);
    let mut hits = hits_of(alloc, index.list(number), &mut steps)?;
    hits.sort_unstable();
    Ok(hits)
}

/// The word of the first argument, as the index has it.
fn wanted(alloc: Global, args: &mut Skip<Args>) -> Result<Text> {
    let Some(text) = args.next() else {
        bail!("usage: example_index WORD TEXT ..");
    };
    ensure!(text.len() <= MOST_TEXT, "the word is too long");
    let words = words(alloc, text.as_str())?;
    let [word] = words.as_slice() else {
        bail!("one word, please");
    };
    Ok(Text::new(alloc, word.term.as_str())?)
}

/// Prints each hit, and how many there are.
fn print(rt: &HostRuntime, hits: &[Hit]) -> Result<()> {
    for hit in hits {
        let (id, weight) = (hit.id, hit.weight.0);
        println!(rt; "text {id} weighs {weight}")?;
    }
    let count = hits.len();
    println!(rt; "{count} of the texts have it")?;
    Ok(())
}

fn main(rt: HostRuntime) -> Result<()> {
    let alloc = rt.alloc();
    let mut args = env::args(&rt)?.skip(1);
    let word = wanted(alloc, &mut args)?;
    let index = index_of(alloc, args)?;
    let hits = ranked::<_, Brand>(&rt, Blank::new(1), alloc, &index, word.as_str().as_bytes());
    drop(index);
    print(&rt, hits?.as_slice())
}
