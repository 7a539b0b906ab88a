//! Words that stand as a phrase.
ghost use Rattle.std.specs.Prelude.{◌≡◌, ◌≤◌, ◌<◌, ◌^◌, ℕ, [], drop, length, slice_index_or, IfSome, MatchOption, None};
ghost use Rattle.sk_model.specs.Positions.{is_phrase};
ghost use Rattle.sk_near.specs.Soonest.{soonest_end, AreTaken};

use crate::places::place_of;
use crate::runs::Runs;
use sk_base::Operands;

/// Equal operands one behind another, each taken as soon as can be: the first position, and one behind the last.
#[derive(Clone, Copy)]
struct Taken {
    first: u64,
    end: u64,
}

/// Takes the equal operands from the one to the other, which is none of them. The mark of the first moves to its
/// position. Behind that, each stands one place further in the same list.
fn take_run<P: Operands>(
    lists: &P,
    i: usize,
    run_end: usize,
    bound: u64,
    marks: &mut [u32],
) -> Option<Taken>
    requires some { i < run_end }
    requires within { run_end ≤ length (P.places lists.now) }
    requires equal { (j : ℕ) → i ≤ j → j < run_end → slice_index_or (P.places lists.now) j [] ≡ slice_index_or (P.places lists.now) i [] }
    requires marks { length (P.places lists.now) ≤ length marks.old }
    ensures value { MatchOption result (soonest_end bound (drop i (P.places lists.now)) ≡ None) (AreTaken bound (P.places lists.now) i run_end) }
    ensures start { IfSome result (λ taken. taken.first < 2 ^ 32) }
    ensures small { IfSome result (λ taken. taken.end ≤ 2 ^ 32) }
{
    let positions = lists.positions(i);
    let place = place_of(positions, marks[i] as usize, bound);
    let others = run_end - i - 1;
    if positions.len() - place <= others {
        return None;
    }
    marks[i] = place as u32;
    Some(Taken {
        first: u64::from(positions[place]),
        end: u64::from(positions[place + others]) + 1,
    })
}

/// Where the operands from one on end, each taken as soon as can be from the bound on.
fn end_from<P: Runs>(lists: &P, mut i: usize, mut bound: u64, marks: &mut [u32]) -> Option<u64>
    requires marks { length (P.places lists.now) ≤ length marks.old }
    requires small { bound ≤ 2 ^ 32 }
    ensures value { result ≡ soonest_end bound (drop i (P.places lists.now)) }
    ensures small { IfSome result (λ end. end ≤ 2 ^ 32) }
{
    'runs: while i < lists.count() {
        let run_end = lists.run_end(i);
        bound = take_run(lists, i, run_end, bound, marks)?.end;
        i = run_end;
    }
    Some(bound)
}

/// Whether the operands stand as a phrase. The marks are memory for a number of each operand, and may hold anything.
///
/// The first operand's first position is taken, and of each other the first behind the one before. Where they end too
/// late, no phrase that begins later ends earlier, so the next start is sought a window before that end. That moves
/// each operand on: there are no more rounds than the shortest operand has positions, and one. A run of equal operands
/// takes one search a round.
pub fn phrase<P: Runs>(lists: &P, window: u32, marks: &mut [u32]) -> bool
    requires some { 1 ≤ length (P.places lists.now) }
    requires wide { 1 ≤ window }
    requires marks { length (P.places lists.now) ≤ length marks.old }
    ensures { result ≡ is_phrase window (P.places lists.now) }
{
    let run_end = lists.run_end(0);
    // No phrase begins below this.
    let mut low = 0u64;
    'starts: loop {
        let Some(taken) = take_run(lists, 0, run_end, low, marks) else {
            return false;
        };
        let Some(end) = end_from(lists, run_end, taken.end, marks) else {
            return false;
        };
        if end <= taken.first + u64::from(window) {
            return true;
        }
        // A phrase that begins behind the first position ends no earlier.
        low = end - u64::from(window);
    }
}
