//! Seeks through trees under rising needs, and looks whether they leave what they may. A line `+ TEXT` adds a document;
//! any other line is the JSON of a query, whose tree is sought in all ways below. Three words, `DOCUMENTS WALKS FORM`,
//! ask for walks through one tree first, for `bench/nodes.py`.
#![tactic(auto)]

ghost use Rattle.std.specs.Prelude.{◌≡◌, ◌≤◌, true, IfSome};
ghost use Rattle.sk_query.specs.Trees.{query_view};
ghost use Rattle.sk_query.specs.Fits.{fits_tree};
ghost use Rattle.sk_tree.specs.Built.{IsTree};

mod documents;
mod left;
mod rounds;

use documents::{add, empty_index};
use left::{Left, keeps_what_is_wanted, left_of, passes_what_is_unwanted, was_left};
use rounds::{Rounds, sum_of_rounds};
use serde_json::Value;
use sk_base::{DocId, Scheme, Weight};
use sk_index::Index;
use sk_io::{Line, Lines, Source, StdSource};
use sk_query::Query;
use sk_query_json::from_json;
use sk_steps::Steps;
use sk_tree::Tree;
use std::alloc::{AllocError, Global};
use std::env::Args;
use std::marker::Brand;
use std::process::ExitCode;
use std::rt::Env;
use std::sync::ledger::{Blank, Ledger};
use std::{env, io};

/// How many bytes of lines are read at the most.
const MOST_BYTES: u64 = 1 << 20;

/// Where the first seek goes.
const TARGETS: [DocId; 4] = [1, 2, 5, 9];

/// Two seeks, the second just behind the head that the first leaves, and with a need that is greater by so much.
#[derive(Clone, Copy)]
struct Walk {
    target: DocId,
    need: Weight,
    more: Weight,
}

/// Whether both seeks leave what they may, of what is left without them.
fn is_lawful<L: Ledger>(
    alloc: Global,
    index: &Index,
    query: &Query,
    all: &[Left],
    walk: Walk,
    steps: &mut Steps<L>,
) -> Result<bool, AllocError>
    requires fits { fits_tree (query_view query.now) ≡ true }
{
    let mut tree = Tree::open(alloc, index, query, Scheme::Nnn, steps)?;
    let lawful = seeks_lawfully(alloc, index, &mut tree, all, walk, steps);
    drop(tree);
    lawful
}

/// The same of a tree at its first match.
fn seeks_lawfully<L: Ledger>(
    alloc: Global,
    index: &Index,
    tree: &mut Tree,
    all: &[Left],
    walk: Walk,
    steps: &mut Steps<L>,
) -> Result<bool, AllocError>
    requires tree { IsTree index.now tree.old }
    requires need { tree.old.need ≡ 0 }
{
    tree.seek(index, walk.target, walk.need, steps);
    let Some(head) = tree.head() else {
        return Ok(keeps_what_is_wanted(all, &[], walk.target, walk.need));
    };
    let weight = tree.weight();
    let first = Left { id: head, weight };
    let is_first = was_left(all, walk.target, head, weight)
        && weight <= tree.ceiling()
        && passes_what_is_unwanted(all, first, walk.target, walk.need);
    let second = walk.need.saturating_add(walk.more);
    if head == DocId::MAX {
        return Ok(is_first);
    }
    tree.seek(index, head + 1, second, steps);
    let ceiling = tree.ceiling();
    let left = left_of(alloc, index, tree, second, steps)?;
    let left = left.as_slice();
    let is_rest = left.iter().all(|one| was_left(all, head + 1, one.id, one.weight)
        && one.weight <= ceiling);
    Ok(is_first && is_rest && keeps_what_is_wanted(all, left, head + 1, second))
}

/// One more than the greatest weight that the tree of a query speaks of, and all that it gives.
fn all_of<L: Ledger>(
    alloc: Global,
    index: &Index,
    query: &Query,
    steps: &mut Steps<L>,
) -> Result<(Weight, Vec<Left>), AllocError>
    requires fits { fits_tree (query_view query.now) ≡ true }
{
    let mut tree = Tree::open(alloc, index, query, Scheme::Nnn, steps)?;
    let greatest = tree.ceiling().saturating_add(1);
    let all = left_of(alloc, index, &mut tree, 0, steps);
    drop(tree);
    Ok((greatest, all?))
}

/// How many seeks there were in all walks through the tree of a query; none where one leaves what it may not.
fn seeks_of<R: Env, L: Ledger>(
    rt: &R,
    blank: Blank,
    alloc: Global,
    index: &Index,
    query: &Query,
) -> Result<Option<u64>, AllocError>
    requires name { blank.name ≡ L.name }
    requires parts { blank.parts ≡ L.parts }
    requires one { blank.parts ≡ 1 }
    requires fits { fits_tree (query_view query.now) ≡ true }
{
    let mut steps = Steps::<L>::open(rt, blank);
    let (greatest, all) = all_of(alloc, index, query, &mut steps)?;
    let mut seeks = 0u64;
    'targets: for target in TARGETS {
        'needs: for need in 0..=greatest {
            'more: for more in 0..=greatest {
                let walk = Walk { target, need, more };
                if !is_lawful(alloc, index, query, all.as_slice(), walk, &mut steps)? {
                    return Ok(None);
                }
                seeks = seeks.saturating_add(2);
            }
        }
    }
    Ok(Some(seeks))
}

/// The query whose JSON a line is.
fn query_in(alloc: Global, line: &[u8]) -> Option<Query>
    ensures { IfSome result (λ query. fits_tree (query_view query) ≡ true) }
{
    let value = Value::from_slice(alloc, line).ok()?;
    let query = from_json(alloc, &value);
    drop(value);
    query.ok()
}

/// The same of a line, under a counter of its own; none where the line is no query.
fn outcome<R: Env>(
    rt: &R,
    alloc: Global,
    index: &Index,
    line: &[u8],
) -> Result<Option<u64>, AllocError> {
    let Some(query) = query_in(alloc, line) else {
        return Ok(None);
    };
    let seeks = seeks_of::<_, Brand>(rt, Blank::new(1), alloc, index, &query);
    drop(query);
    seeks
}

/// What the lines came to.
enum Sought {
    /// So many seeks through so many trees leave what they may.
    Lawful(u64, u64),
    /// A seek through the tree of this line leaves what it may not.
    Unlawful(String),
    /// The lines cannot be read.
    Unread,
}

/// What one line came to.
enum Step {
    /// A document.
    Document,
    /// So many seeks.
    Tree(u64),
    /// A seek leaves what it may not.
    Unlawful,
}

/// The index with the document of a line, or the same and what a query's seeks came to.
fn take_line<R: Env>(
    rt: &R,
    alloc: Global,
    index: Index,
    line: &[u8],
) -> Result<(Index, Step), AllocError> {
    if let Some(text) = line.strip_prefix(b"+ ") {
        return Ok((add(alloc, index, text)?, Step::Document));
    }
    match outcome(rt, alloc, &index, line) {
        Ok(Some(seeks)) => Ok((index, Step::Tree(seeks))),
        Ok(None) => Ok((index, Step::Unlawful)),
        Err(fault) => {
            drop(index);
            Err(fault)
        }
    }
}

/// Adds the documents of lines, and seeks through the trees of the others.
fn seek_all<R: Env, S: Source>(
    rt: &R,
    alloc: Global,
    source: &mut S,
) -> Result<Sought, AllocError> {
    let mut lines = Lines::new(alloc, MOST_BYTES)?;
    let mut index = empty_index(alloc)?;
    let mut trees = 0u64;
    let mut seeks = 0u64;
    for _ in 0..u64::MAX {
        let line = match lines.next(source) {
            Ok(Some(Line::Whole(line))) => line,
            Ok(None) => break,
            _ => {
                drop(index);
                return Ok(Sought::Unread);
            }
        };
        let (next, told) = take_line(rt, alloc, index, line)?;
        index = next;
        match told {
            Step::Document => {}
            Step::Tree(more) => {
                trees = trees.saturating_add(1);
                seeks = seeks.saturating_add(more);
            }
            Step::Unlawful => {
                drop(index);
                return Ok(Sought::Unlawful(String::from_utf8_lossy(alloc, line)?));
            }
        }
    }
    drop(index);
    Ok(Sought::Lawful(seeks, trees))
}

/// The number of a word, 0 where it is none.
fn number(word: Option<String>) -> u32 {
    match word {
        Some(word) => word.as_str().parse::<u32>().unwrap_or(0),
        None => 0,
    }
}

/// The rounds that the words ask for, if there is one.
fn rounds_asked(mut args: Args) -> Option<Rounds> {
    args.next();
    let first = args.next();
    if first.is_none() {
        return None;
    }
    Some(Rounds {
        documents: number(first),
        walks: number(args.next()),
        form: number(args.next()),
    })
}

fn main(rt: HostRuntime) -> io::Result<ExitCode> {
    let alloc = rt.alloc();
    if let Some(rounds) = rounds_asked(env::args(&rt)?) {
        let sum = sum_of_rounds(&rt, alloc, rounds)?;
        println!(rt; "{sum}")?;
    }
    let mut source = StdSource::new(rt.stdin());
    match seek_all(&rt, alloc, &mut source)? {
        Sought::Lawful(seeks, trees) => {
            println!(rt; "{seeks} seeks in {trees} trees leave what they may")?;
            Ok(ExitCode::SUCCESS)
        }
        Sought::Unlawful(line) => {
            println!(rt; "leaves what it may not: {line}")?;
            Ok(ExitCode::FAILURE)
        }
        Sought::Unread => {
            eprintln!(rt; "the lines cannot be read")?;
            Ok(ExitCode::from(3))
        }
    }
}
