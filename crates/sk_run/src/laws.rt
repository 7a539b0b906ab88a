//! What follows of the main theorem.
ghost use Rattle.std.specs.Prelude.{◌≡◌, ◌≤◌, ◌+◌, ◌⊎◌, ℕ, false, List, Some, sum_by};
ghost use Rattle.sk_run.specs.declared.form.Form.{Form};
ghost use Rattle.sk_run.specs.declared.status.Status.{Status};
ghost use Rattle.sk_run.specs.declared.status.Status.TheVariants as Status;
ghost use Rattle.sk_run.specs.Statuses.{IsFinished};
ghost use Rattle.sk_run.specs.Forms.{form_of};
ghost use Rattle.sk_run.specs.Outsides.{Outside};
ghost use Rattle.sk_run.specs.Ran.{AllQuiet, Ran};
ghost use Rattle.sk_run.specs.ByForm.{printing_of, ReadsTold, WholeBy};
ghost use Rattle.sk_run.specs.Ended.{Finishes};
ghost use Rattle.sk_run.specs.Paying.{Pays};
ghost use Rattle.sk_run.specs.Responses.{steps_of};

use crate::Store;

/// A law: under the words of a form, where both sources tell their bytes, which are not too many, and nothing fails, a
/// run comes to its end, or memory ran out.
pub fn comes_to_its_end<M: Store>()
    ensures { (words : List (List ℕ)) (form : Form) (status : Status) (before after : Outside) → Ran M.conduct words status before after → form_of words ≡ Some form
        → AllQuiet before after → IsFinished status ⊎ (status ≡ Status.Memory) }
{}

/// A law: the counter never falls.
pub fn counter_never_falls<M: Store>()
    ensures { (words : List (List ℕ)) (status : Status) (before after : Outside) → Ran M.conduct words status before after → before.output.steps ≤ after.output.steps }
{}

/// A law: of a run that came to its end over a store that pays what it owes, where the sources that it reads tell their
/// bytes, the counter rose by what its answers tell: each reading is told once.
pub fn readings_are_told<M: Store>()
    ensures { (owed : M.State → ℕ) → Pays M.conduct owed → (form : Form) (status : Status) (before after : Outside) → ReadsTold form before
        → (end : Finishes (printing_of form) (WholeBy M.conduct form before after) false status before.output after.output)
        → after.output.steps ≡ before.output.steps + sum_by steps_of end.answers }
{}
