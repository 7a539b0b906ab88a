//! Words that stand near.
ghost use Rattle.std.specs.Prelude.{◌≡◌, ◌≤◌, ◌<◌, ◌^◌, length, MatchOption};
ghost use Rattle.sk_model.specs.Positions.{is_near};
ghost use Rattle.sk_near.specs.Windows.{WindowsFrom, HasNoWindow, IsRaised};

use crate::operands::position_from;
use sk_base::Operands;

/// Goes over all operands once. Each raises the bound to the first window that reaches its first position from there on.
fn raise<P: Operands>(lists: &P, window: u32, low: u64, marks: &mut [u32]) -> Option<u64>
    requires wide { 1 ≤ window }
    requires marks { length (P.places lists.now) ≤ length marks.old }
    requires from { WindowsFrom window low (P.places lists.now) }
    requires small { low < 2 ^ 32 }
    ensures { MatchOption result (HasNoWindow window (P.places lists.now)) (IsRaised window (P.places lists.now) low) }
{
    let width = u64::from(window);
    let mut raised = low;
    for i in 0..lists.count() {
        let position = position_from(lists, i, raised, marks)?;
        let behind = u64::from(position) + 1;
        if raised + width < behind {
            raised = behind - width;
        }
    }
    Some(raised)
}

/// Whether the operands stand near. The marks are memory for a number of each operand, and may hold anything.
///
/// The operands are gone over in rounds, until a round leaves the bound as it was, or an operand has no position left.
/// A round takes a search in each operand, and may move only one.
pub fn near<P: Operands>(lists: &P, window: u32, marks: &mut [u32]) -> bool
    requires some { 1 ≤ length (P.places lists.now) }
    requires wide { 1 ≤ window }
    requires marks { length (P.places lists.now) ≤ length marks.old }
    ensures { result ≡ is_near window (P.places lists.now) }
{
    // No window below this has a position of each operand.
    let mut low = 0u64;
    'bounds: loop {
        let Some(raised) = raise(lists, window, low, marks) else {
            return false;
        };
        if raised == low {
            return true;
        }
        low = raised;
    }
}
