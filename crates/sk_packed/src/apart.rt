//! When the positions of two terms are apart.
ghost use Rattle.std.specs.Prelude.{◌≡◌, true};
ghost use Rattle.sk_base.specs.Order.{ArePositions};
ghost use Rattle.sk_packed.specs.Apart.{AreApart};

/// Whether no position of the second term stands behind one of the first by less than the width. It goes through both
/// together.
pub fn are_apart(first: &[u32], second: &[u32], width: u32) -> bool
    requires first { ArePositions first.now }
    requires second { ArePositions second.now }
    ensures { result ≡ true → AreApart width first.now second.now }
{
    let mut i = 0;
    let mut j = 0;
    'positions: while i < first.len() && j < second.len() {
        if second[j] <= first[i] {
            j += 1;
        } else if second[j] - first[i] < width {
            return false;
        } else {
            i += 1;
        }
    }
    true
}
