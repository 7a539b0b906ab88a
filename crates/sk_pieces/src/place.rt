//! The place of an id, and the first entry from an id on.
ghost use Rattle.std.specs.Prelude.{◌≡◌, ◌≤◌, length, drop, IfSome};
ghost use Rattle.sk_sorted.specs.Entries.{RiseAbove, from};
ghost use Rattle.sk_sorted.specs.Places.{IsAt};

use sk_sorted::first_reaching;

/// Where the id stands if none is left out between the first one and it; `None` where it does not stand there.
pub(crate) fn place_without_gaps<T>(entries: &[(u32, T)], id: u32) -> Option<usize>
    ensures { IfSome result (IsAt entries.now id) }
{
    let first = entries.first()?;
    let at = id.checked_sub(first.0)? as usize;
    if at < entries.len() && entries[at].0 == id {
        return Some(at);
    }
    None
}

/// The place of the first entry whose id is at least `id`.
pub(crate) fn place_from<T>(entries: &[(u32, T)], id: u32) -> usize
    requires { RiseAbove 0 entries.now }
    ensures left { drop result entries.now ≡ from id entries.now }
    ensures within { result ≤ length entries.now }
{
    first_reaching(entries, 0, id)
}
