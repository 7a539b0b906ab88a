//! The terms of a query by their numbers, and as queries.
ghost use Rattle.std.specs.Prelude.{◌≡◌, ◌≤◌, ◌<◌, ◌+◌, ◌^◌, map, IfOk, OnOk, OnErr};
ghost use Rattle.sk_dict.specs.Terms.{term_at};
ghost use Rattle.sk_index.specs.Indexed.{AreNumbered};
ghost use Rattle.sk_query.specs.Trees.{queries_view};
ghost use Rattle.sk_tree.specs.Opened.{term_trees, numbered};
ghost use Rattle.sk_nodes.specs.Proximity.{entries_unread, AreThere, AreInOrder};

use sk_base::Text;
use sk_index::Index;
use sk_nodes::{ListOf, list_length};
use sk_query::{Queries, Query};
use std::alloc::{AllocError, Global};

/// The numbers of those words that have one, in their order.
pub(crate) fn numbers_of(
    alloc: Global,
    index: &Index,
    words: &[Text],
) -> Result<Vec<usize>, AllocError>
    ensures there { IfOk result (λ ns. AreThere index.now ns.items) }
    ensures terms { IfOk result (λ ns. map (term_at index.now.terms) ns.items ≡ numbered index.now words.now) }

    // No document has a term without a number.
    ensures complete { AreNumbered index.now }
{
    let _complete = index.highest();
    let mut numbers = Vec::new(alloc);
    'words: for word in words {
        if let Some(number) = index.number_of(word.as_str().as_bytes()) {
            numbers.push(number)?;
        }
    }
    Ok(numbers)
}

/// The words as queries, in their order.
pub(crate) fn terms_of(alloc: Global, words: &[Text]) -> Result<Queries, AllocError>
    ensures { IfOk result (λ terms. queries_view terms.items ≡ term_trees words.now) }
{
    let mut terms = Vec::new(alloc);
    'words: for word in words {
        let term = Text::new(alloc, word.as_str())?;
        terms.push(Query::Term(term))?;
    }
    Ok(terms)
}

/// Adds the lengths of the lists of the terms with these numbers.
pub(crate) fn add_lengths(
    index: &Index,
    numbers: &[usize],
    most: &mut u128,
) -> Result<(), AllocError>
    requires there { AreThere index.now numbers.now }
    ensures sorted { OnOk result (AreInOrder index.now numbers.now) }
    ensures sum { OnOk result (most.new ≡ most.old + entries_unread index.now 0 numbers.now) }
    ensures later { most.old ≤ most.new }
    ensures small { most.old < 2 ^ 128 → most.new < 2 ^ 128 }
{
    'numbers: for number in numbers {
        let number = *number;
        let length = list_length(index, ListOf::Term(number));
        raise(most, length)?;
    }
    Ok(())
}

/// Adds the length of one list. As many entries as 128 bits cannot count are in no memory.
pub(crate) fn raise(most: &mut u128, length: u32) -> Result<(), AllocError>
    ensures ok { OnOk result (most.new ≡ most.old + length) }
    ensures err { OnErr result (most.new ≡ most.old) }
    ensures later { most.old ≤ most.new }
    ensures small { most.old < 2 ^ 128 → most.new < 2 ^ 128 }
{
    let all = most.checked_add(u128::from(length)).ok_or(AllocError)?;
    *most = all;
    Ok(())
}
