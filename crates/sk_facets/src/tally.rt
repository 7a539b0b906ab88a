//! What was counted so far.
ghost use Rattle.std.specs.Prelude.{◌≡◌, ◌<◌, ◌+◌, ◌^◌, ℕ, List, [], ◌∷◌, ◌++◌, length, OnOk, IfOk};
ghost use Rattle.sk_model.specs.Laws.{AreTallied};
ghost use Rattle.sk_facets.specs.Tallied.{facets_in, AreFirst, Knows, IsTally, HasRoom};

use crate::first::{Entry, first_of};
use sk_base::{FacetList, Facets};
use std::alloc::{AllocError, Global};
use std::collections::BTreeMap;

/// How often each value that is not empty was seen, how many were empty, and how many there were.
#[derive(Drop)]
pub(crate) struct Tally {
    alloc: Global,
    counts: BTreeMap<Vec<u8>, u32>,
    without: u32,
    matches: u32,
}

impl Tally {
    /// Nothing seen. It takes no memory.
    pub(crate) fn new(alloc: Global) -> Tally
        ensures { Knows result [] }
    {
        Tally {
            alloc,
            counts: BTreeMap::new(alloc),
            without: 0,
            matches: 0,
        }
    }

    /// Sees the value of one more match. Only a value that was not seen before is copied. Where memory runs out the tally
    /// is only to be dropped.
    pub(crate) fn note(&mut self, value: &[u8]) -> Result<(), AllocError>
        requires tally { IsTally self.old }
        requires few { self.old.matches + 1 < 2 ^ 32 }
        ensures knows { OnOk result ((values : List (List ℕ)) → Knows self.old values → Knows self.new (values ++ value.now ∷ [])) }
    {
        self.matches += 1;
        if value.is_empty() {
            self.without += 1;
            return Ok(());
        }
        add_one(self.alloc, &mut self.counts, value)
    }

    /// The first `size` values, and what is known of all, where so many readings were made beside those of the values.
    pub(crate) fn finish(self, size: u32, spent: u128) -> Result<Facets, AllocError>
        requires tally { IsTally self }
        ensures values { IfOk result (λ facets. (values : List (List ℕ)) → Knows self values → AreFirst values size facets.values facets.distinct) }
        ensures numbers { IfOk result (λ facets. (facets.without ≡ self.without) × (facets.matches ≡ self.matches)) }
        ensures steps { IfOk result (λ facets. facets.steps ≡ spent + self.matches) }
    {
        let steps = spent
            .checked_add(u128::from(self.matches))
            .ok_or(AllocError)?;
        let entries = entries_of(self.alloc, self.counts)?;
        let distinct = entries.len() as u32;
        let values = first_of(self.alloc, entries, size as usize)?;
        Ok(Facets {
            values: FacetList::from_vec(values),
            distinct,
            without: self.without,
            matches: self.matches,
            steps,
        })
    }
}

/// Counts the value once more.
fn add_one(
    alloc: Global,
    counts: &mut BTreeMap<Vec<u8>, u32>,
    value: &[u8],
) -> Result<(), AllocError>
    requires given { 0 < length value.now }
    requires few { HasRoom counts.old.entries }
    ensures tallied { OnOk result ((values : List (List ℕ)) → AreTallied values (facets_in counts.old.entries) → AreTallied (value.now ∷ values) (facets_in counts.new.entries)) }
{
    match counts.get_mut(value) {
        Some(count) => {
            *count += 1;
            Ok(())
        }
        None => {
            let key = value.to_vec(alloc)?;
            counts.insert(key, 1)?;
            Ok(())
        }
    }
}

/// The entries of the map.
fn entries_of(alloc: Global, counts: BTreeMap<Vec<u8>, u32>) -> Result<Vec<Entry>, AllocError>
    ensures { IfOk result (λ entries. entries.items ≡ counts.entries) }
{
    let mut entries = Vec::new(alloc);
    'counts: for entry in counts {
        entries.push(entry)?;
    }
    Ok(entries)
}
