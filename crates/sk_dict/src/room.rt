//! Room in vectors that take much memory.
ghost use Rattle.std.specs.Prelude.{◌≡◌, ◌<◌, ◌≤◌, ◌+◌, OnOk};
ghost use Rattle.std.specs.Vec.{vec_len, vec_capacity};

use std::alloc::AllocError;

/// Makes room for one more. A vector that is full grows by an eighth, and not to twice its size: it is moved more often,
/// and a ninth of it at most is empty.
pub fn make_room<T>(items: &mut Vec<T>) -> Result<(), AllocError>
    ensures same { items.new.items ≡ items.old.items }
    ensures len { vec_len items.new ≡ vec_len items.old }
    ensures ok { OnOk result (vec_len items.new < vec_capacity items.new) }
{
    make_room_for(items, 1)
}

/// The same for several more.
pub(crate) fn make_room_for<T>(items: &mut Vec<T>, count: usize) -> Result<(), AllocError>
    ensures same { items.new.items ≡ items.old.items }
    ensures len { vec_len items.new ≡ vec_len items.old }
    ensures ok { OnOk result (vec_len items.new + count ≤ vec_capacity items.new) }
{
    if count <= items.capacity() - items.len() {
        return Ok(());
    }
    items.reserve_exact(count.max(items.len() / 8 + 1))
}
