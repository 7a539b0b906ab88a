//! Many walks through the tree of a query over two words, so that the time of a posting can be told.
ghost use Rattle.std.specs.Prelude.{◌≡◌, true};
ghost use Rattle.sk_query.specs.Trees.{query_view};
ghost use Rattle.sk_query.specs.Fits.{fits_tree};
ghost use Rattle.sk_tree.specs.Built.{IsTree};

use crate::documents::{add, empty_index};
use sk_base::{Scheme, Text, Weight};
use sk_index::Index;
use sk_query::Query;
use sk_steps::Steps;
use sk_tree::Tree;
use std::alloc::{AllocError, Global};
use std::marker::Brand;
use std::rt::Env;
use std::sync::ledger::{Blank, Ledger};

/// How many documents there are, how many walks, and through which tree.
#[derive(Clone, Copy)]
pub(crate) struct Rounds {
    pub(crate) documents: u32,
    pub(crate) walks: u32,
    pub(crate) form: u32,
}

/// The words of a document: each of two words in about half of all, by a scattered number.
fn text_of(i: u32) -> &'static [u8] {
    let x = u64::from(i).wrapping_mul(0x9E37_79B9_7F4A_7C15);
    let y = (x ^ (x >> 32)).wrapping_mul(0xD6E8_FEB8_6659_FD93);
    match (y >> 33) & 3 {
        0 => b"c",
        1 => b"a",
        2 => b"b",
        _ => b"a b",
    }
}

/// An index of so many documents.
fn filled(alloc: Global, n: u32) -> Result<Index, AllocError> {
    let mut index = empty_index(alloc)?;
    'docs: for i in 0..n {
        index = add(alloc, index, text_of(i))?;
    }
    Ok(index)
}

/// The query of a number: an and of the two words, or another form.
fn query(alloc: Global, form: u32) -> Result<Query, AllocError> {
    let mut parts = Vec::new(alloc);
    parts.push(Query::Term(Text::new(alloc, "a")?))?;
    parts.push(Query::Term(Text::new(alloc, "b")?))?;
    match form {
        1 => Ok(Query::Or(parts)),
        2 => Ok(Query::Max(parts)),
        3 => Ok(Query::Xor(parts)),
        4 => Ok(Query::AndNot(parts)),
        5 => Ok(Query::AndMaybe(parts)),
        6 => Ok(Query::Term(Text::new(alloc, "a")?)),
        _ => Ok(Query::And(parts)),
    }
}

/// The weights of all matches, added.
fn walk<L: Ledger>(
    alloc: Global,
    index: &Index,
    query: &Query,
    steps: &mut Steps<L>,
) -> Result<Weight, AllocError>
    requires fits { fits_tree (query_view query.now) ≡ true }
{
    let mut tree = Tree::open(alloc, index, query, Scheme::Nnn, steps)?;
    let sum = weights_left(index, &mut tree, steps);
    drop(tree);
    Ok(sum)
}

/// Goes through all that is left of a tree, and adds the weights.
fn weights_left<L: Ledger>(index: &Index, tree: &mut Tree, steps: &mut Steps<L>) -> Weight
    requires tree { IsTree index.now tree.old }
    requires need { tree.old.need ≡ 0 }
{
    let mut sum: Weight = 0;
    'walk: for _ in 0..u32::MAX {
        let Some(id) = tree.head() else {
            return sum;
        };
        sum = sum.wrapping_add(tree.weight());
        if id == u32::MAX {
            return sum;
        }
        tree.seek(index, id + 1, 0, steps);
    }
    sum
}

/// The sum of all weights in so many walks.
fn sum_in<L: Ledger>(
    alloc: Global,
    index: &Index,
    query: &Query,
    walks: u32,
    steps: &mut Steps<L>,
) -> Result<Weight, AllocError>
    requires fits { fits_tree (query_view query.now) ≡ true }
{
    let mut sum: Weight = 0;
    'rounds: for _ in 0..walks {
        sum = sum.wrapping_add(walk(alloc, index, query, steps)?);
    }
    Ok(sum)
}

/// The sum of all weights in all rounds.
fn sum_of<R: Env, L: Ledger>(
    rt: &R,
    blank: Blank,
    alloc: Global,
    rounds: Rounds,
) -> Result<Weight, AllocError>
    requires name { blank.name ≡ L.name }
    requires parts { blank.parts ≡ L.parts }
    requires one { blank.parts ≡ 1 }
{
    let mut steps = Steps::<L>::open(rt, blank);
    let query = query(alloc, rounds.form)?;
    let sum = if query.fits() {
        sum_over(alloc, &query, rounds, &mut steps)
    } else {
        Err(AllocError)
    };
    drop(query);
    sum
}

/// The sum of all weights in all rounds of a query.
fn sum_over<L: Ledger>(
    alloc: Global,
    query: &Query,
    rounds: Rounds,
    steps: &mut Steps<L>,
) -> Result<Weight, AllocError>
    requires fits { fits_tree (query_view query.now) ≡ true }
{
    let index = filled(alloc, rounds.documents)?;
    let sum = sum_in(alloc, &index, query, rounds.walks, steps);
    drop(index);
    sum
}

/// The same, under a counter of its own.
pub(crate) fn sum_of_rounds<R: Env>(
    rt: &R,
    alloc: Global,
    rounds: Rounds,
) -> Result<Weight, AllocError> {
    let sum = sum_of::<_, Brand>(rt, Blank::new(1), alloc, rounds)?;
    Ok(sum)
}
