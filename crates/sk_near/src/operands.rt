//! The next position of an operand.
ghost use Rattle.std.specs.Prelude.{◌≡◌, ◌≤◌, ◌<◌, [], length, slice_index_or};
ghost use Rattle.sk_near.specs.Soonest.{first_from};

use crate::places::place_of;
use sk_base::Operands;

/// The operand's first position from the bound on. Its mark moves there.
pub(crate) fn position_from<P: Operands>(
    lists: &P,
    i: usize,
    bound: u64,
    marks: &mut [u32],
) -> Option<u32>
    requires there { i < length (P.places lists.now) }
    requires marks { length (P.places lists.now) ≤ length marks.old }
    ensures { result ≡ first_from bound (slice_index_or (P.places lists.now) i []) }
{
    let positions = lists.positions(i);
    let place = place_of(positions, marks[i] as usize, bound);
    if place == positions.len() {
        return None;
    }
    marks[i] = place as u32;
    Some(positions[place])
}
