//! What is looked for among entries.
ghost use Rattle.std.specs.Prelude.{◌≡◌, ◌≤◌, max, IfOk, IfErr};
ghost use Rattle.sk_sorted.specs.Entries.{RiseAbove, top_id};
ghost use Rattle.sk_sorted.specs.Places.{IsAt, IsGapFor};
ghost use Rattle.sk_chunks.specs.Postings.{greatest_wdf};

use crate::entry::Entry;

/// Where the id stands, or where it would go; with no look at an entry where it is above the last id.
pub(crate) fn place_of(entries: &[Entry], last: u32, id: u32) -> Result<usize, usize>
    requires rise { RiseAbove 0 entries.now }
    requires top { top_id 0 entries.now ≡ last }
    ensures found { IfOk result (IsAt entries.now id) }
    ensures absent { IfErr result (IsGapFor entries.now id) }
{
    if last < id {
        return Err(entries.len());
    }
    entries.binary_search_by_key(&id, |entry| entry.id())
}

/// The last id, 0 where there is none.
pub(crate) fn last_of(entries: &[Entry]) -> u32
    ensures { result ≡ top_id 0 entries.now }
{
    match entries.last() {
        Some(entry) => entry.id(),
        None => 0,
    }
}

/// The greatest wdf, where `greatest` is that of the entries and of one more whose wdf is `gone`.
pub(crate) fn greatest_without(entries: &[Entry], greatest: u32, gone: u32) -> u32
    requires { max gone (greatest_wdf entries.now) ≡ greatest }
    ensures { result ≡ greatest_wdf entries.now }
{
    if gone < greatest {
        return greatest;
    }
    greatest_of(entries, greatest)
}

/// The greatest wdf, by a scan that stops at the first entry that has the most that one can have.
pub(crate) fn greatest_of(entries: &[Entry], bound: u32) -> u32
    requires { greatest_wdf entries.now ≤ bound }
    ensures { result ≡ greatest_wdf entries.now }
{
    let mut most = 0u32;
    'entries: for entry in entries {
        most = most.max(entry.wdf());
        if most == bound {
            return most;
        }
    }
    most
}
