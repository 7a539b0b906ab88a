//! What is asked of two sides under a form.
ghost use Rattle.std.specs.Prelude.{◌≡◌, ◌<◌, ◌+◌, ◌^◌, ℕ, [], ◌∷◌, Option};
ghost use Rattle.sk_query.specs.declared.form.Form.{Form};
ghost use Rattle.sk_model.specs.Combining.{combined};
ghost use Rattle.sk_model.specs.Covers.{first_need, second_need};
ghost use Rattle.sk_decay.specs.Sides.{paired, greatest_under, is_led, second_target};

use crate::Head;
use sk_base::Weight;
use sk_query::Form;

/// The need of the first side, by the greatest weight of the second.
pub fn first_need(form: Form, need: Weight, b: Weight) -> Weight
    ensures { result ≡ first_need form need b }
{
    match form {
        Form::And | Form::Or | Form::AndMaybe => need.saturating_sub(b),
        Form::Max | Form::AndNot | Form::Filter => need,
        Form::Xor => 0,
    }
}

/// The need of the second side, by the greatest weight that is left of the first.
pub fn second_need(form: Form, need: Weight, a: Weight) -> Weight
    ensures { result ≡ second_need form need a }
{
    match form {
        Form::And | Form::Or | Form::AndMaybe => need.saturating_sub(a),
        Form::Max => need,
        Form::Xor | Form::AndNot | Form::Filter => 0,
    }
}

/// No weight under the form is above it, by the greatest of the sides.
pub fn greatest_under(form: Form, a: Weight, b: Weight) -> Weight
    requires { a + b < 2 ^ 127 }
    ensures { result ≡ greatest_under form a b }
{
    match form {
        Form::And | Form::Or | Form::AndMaybe => a + b,
        Form::Xor | Form::Max => a.max(b),
        Form::AndNot | Form::Filter => a,
    }
}

/// Whether nothing is given where the first side gives nothing.
pub fn is_led(form: Form) -> bool
    ensures { result ≡ is_led form }
{
    match form {
        Form::Or | Form::Xor | Form::Max => false,
        Form::And | Form::AndNot | Form::AndMaybe | Form::Filter => true,
    }
}

/// From where the second side is sought: where the first leads, from its head.
pub fn second_target(form: Form, target: Head, head: Head) -> Head
    ensures { result ≡ second_target form target head }
{
    if is_led(form) { head } else { target }
}

/// A law: what two sides are paired to is what a form makes of their scores.
pub fn sides_are_paired()
    ensures { (form : Form) (a b : Option ℕ) → paired form a b ≡ combined form (a ∷ b ∷ []) }
{}
