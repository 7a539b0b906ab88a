//! The ids of what stands in several parts, which take turns.
ghost use Rattle.std.specs.Prelude.{◌≡◌, ◌≤◌, ◌<◌, ◌^◌};
ghost use Rattle.sk_sorted.specs.Joined.{joined_id, part_of, own_id};

/// The joined id of what stands in a part under its own id: the first of each part come first, in the order of the parts,
/// then the second of each, and so on.
pub fn joined_id(parts: u32, part: u32, own: u32) -> u32
    requires part { part < parts }
    requires own { 1 ≤ own }
    requires fits { joined_id parts part own < 2 ^ 32 }
    ensures { result ≡ joined_id parts part own }
{
    (own - 1) * parts + part + 1
}

/// The part that what has a joined id stands in.
pub fn part_of(parts: u32, id: u32) -> u32
    requires parts { 1 ≤ parts }
    requires id { 1 ≤ id }
    ensures value { result ≡ part_of parts id }
    ensures below { result < parts }
{
    (id - 1) % parts
}

/// Its own id there.
pub fn own_id(parts: u32, id: u32) -> u32
    requires parts { 1 ≤ parts }
    requires id { 1 ≤ id }
    ensures value { result ≡ own_id parts id }
    ensures begun { 1 ≤ result }
{
    (id - 1) / parts + 1
}
