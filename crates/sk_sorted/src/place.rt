//! The place of an id among entries in order.
ghost use Rattle.std.specs.Prelude.{IfOk, IfErr};
ghost use Rattle.sk_sorted.specs.Entries.{RiseAbove};
ghost use Rattle.sk_sorted.specs.Places.{IsAt, IsGapFor};

/// Where the id stands, or where it would go; in constant time where it is above all others.
pub fn place_of<T>(entries: &[(u32, T)], id: u32) -> Result<usize, usize>
    requires { RiseAbove 0 entries.now }
    ensures found { IfOk result (IsAt entries.now id) }
    ensures absent { IfErr result (IsGapFor entries.now id) }
{
    match entries.last() {
        None => Err(0),
        Some(last) => if last.0 < id {
            Err(entries.len())
        } else {
            entries.binary_search_by_key(&id, |entry| entry.0)
        },
    }
}
