//! What is told of all parts, one after the other.
ghost use Rattle.std.specs.Prelude.{◌≡◌, ◌≤◌, ◌<◌, ◌+◌, ◌^◌, ◌++◌, map, length, All, OnOk};
ghost use Rattle.sk_sorted.specs.Joined as Joined;
ghost use Rattle.sk_documents.specs.Gathered.{all_ids_with, AreIds, total};

use crate::Keeper;
use sk_base::DocId;
use sk_sorted::joined_id;
use std::alloc::AllocError;

/// Notes the ids of all parts' documents that have the term, from one part on.
pub(crate) fn gather<K: Keeper>(
    parts: &mut [K],
    count: u32,
    part: u32,
    term: &[u8],
    ids: &mut Vec<DocId>,
) -> Result<(), AllocError>
    requires few { count ≤ 16 }
    requires within { part + length parts.old ≤ count }
    requires fit { AreIds term.now count part (map K.documents parts.old) }
    ensures ids { OnOk result (ids.new.items ≡ ids.old.items ++ all_ids_with term.now count part (map K.documents parts.old)) }
    ensures same { parts.new ≡ parts.old }
{
    if let Some((first, rest)) = parts.split_first_mut() {
        let own = first.ids_with(term)?;
        note(ids, count, part, own.as_slice())?;
        return gather(rest, count, part + 1, term, ids);
    }
    Ok(())
}

/// Notes the joined ids of these own ids.
fn note(ids: &mut Vec<DocId>, count: u32, part: u32, own: &[DocId]) -> Result<(), AllocError>
    requires part { part < count }
    requires begun { All (λ id. 1 ≤ id) own.now }
    requires small { All (λ id. Joined.joined_id count part id < 2 ^ 32) own.now }
    ensures { OnOk result (ids.new.items ≡ ids.old.items ++ map (Joined.joined_id count part) own.now) }
{
    'own: for id in own {
        ids.push(joined_id(count, part, *id))?;
    }
    Ok(())
}

/// How many documents there are in all parts.
pub(crate) fn count_all<K: Keeper>(parts: &[K]) -> usize
    requires { total (map K.documents parts.now) < 2 ^ 64 }
    ensures { result ≡ total (map K.documents parts.now) }
{
    if let Some((first, rest)) = parts.split_first() {
        return first.count() + count_all(rest);
    }
    0
}
