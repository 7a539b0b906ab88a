//! Where two sides meet.
ghost use Rattle.std.specs.Prelude.{◌≡◌, ◌≤◌, ◌<◌, ◌+◌, ◌^◌, ℕ, true, Option};
ghost use Rattle.sk_decay.specs.Sides.{is_led};
ghost use Rattle.sk_decay.specs.Heads.{IsHead, Meets, GoesOnOnly, MeetsAt, MeetsBoth, behind};

use sk_base::Weight;
use sk_query::Form;

/// The first id that a side gives, or `END`.
pub type Head = u64;

/// The head of a side that has ended.
pub const END: Head = 4_294_967_296;

/// Where what two sides give together begins, with its weight, or from where on the sides have to be sought.
#[derive(Clone, Copy, Debug, PartialEq, Eq)]
pub enum Meeting {
    At(Head, Weight),
    Behind(Head),
}

/// Where sides with the heads `a` and `b`, which weigh `v` and `w` there, meet under the form.
pub fn meeting_of(form: Form, a: Head, v: Weight, b: Head, w: Weight) -> Meeting
    requires fits { v + w < 2 ^ 127 }
    requires led { is_led form ≡ true → a ≤ b }
    ensures meets { (f g : ℕ → Option ℕ) → IsHead a v f → IsHead b w g → Meets form a f g result }
    ensures on { GoesOnOnly form result }
    ensures at { is_led form ≡ true → MeetsAt a result }
    ensures both { MeetsBoth form a b result }
{
    match form {
        Form::And => {
            if a == b {
                return Meeting::At(a, v + w);
            }
            behind(b)
        }
        Form::Or => {
            if a < b {
                return Meeting::At(a, v);
            }
            if b < a {
                return Meeting::At(b, w);
            }
            Meeting::At(a, v + w)
        }
        Form::Xor => {
            if a < b {
                return Meeting::At(a, v);
            }
            if b < a {
                return Meeting::At(b, w);
            }
            if END <= a {
                return Meeting::At(END, 0);
            }
            behind(a + 1)
        }
        Form::Max => {
            if a < b {
                return Meeting::At(a, v);
            }
            if b < a {
                return Meeting::At(b, w);
            }
            Meeting::At(a, v.max(w))
        }
        Form::AndNot => {
            if a < b {
                return Meeting::At(a, v);
            }
            if END <= a {
                return Meeting::At(END, 0);
            }
            behind(a + 1)
        }
        Form::AndMaybe => {
            if a < b {
                return Meeting::At(a, v);
            }
            Meeting::At(a, v + w)
        }
        Form::Filter => {
            if a == b {
                return Meeting::At(a, v);
            }
            behind(b)
        }
    }
}

fn behind(next: Head) -> Meeting
    ensures { result ≡ behind next }
{
    if next < END {
        Meeting::Behind(next)
    } else {
        Meeting::At(END, 0)
    }
}
