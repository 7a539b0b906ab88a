//! The documents of one of several parts.
ghost use Rattle.std.specs.Prelude.{◌≡◌, ◌<◌, IfOk};
ghost use Rattle.sk_sorted.specs.Entries.{RiseAbove};
ghost use Rattle.sk_model.specs.Joined.{part_docs};

use sk_base::{Doc, DocId};
use sk_sorted::{own_id, part_of};
use std::alloc::{AllocError, Global};
use std::collections::BTreeMap;

/// The documents that stand in a part, under the ids that they have there.
pub fn part_docs(
    alloc: Global,
    docs: &BTreeMap<DocId, Doc>,
    parts: u32,
    part: u32,
) -> Result<BTreeMap<DocId, Doc>, AllocError>
    requires part { part < parts }
    requires rising { RiseAbove 0 docs.now.entries }
    ensures { IfOk result (λ own. own.entries ≡ part_docs parts part docs.now.entries) }
{
    let mut own = BTreeMap::new(alloc);
    'docs: for (id, doc) in docs.iter() {
        if part_of(parts, *id) == part {
            let copy = doc.copy(alloc)?;
            own.insert(own_id(parts, *id), copy)?;
        }
    }
    Ok(own)
}
