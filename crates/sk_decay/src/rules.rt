//! Which change comes when.
ghost use Rattle.std.specs.Prelude.{◌≡◌, ◌<◌, ◌+◌, ◌^◌};
ghost use Rattle.sk_query.specs.declared.form.Form.TheVariants as Form;
ghost use Rattle.sk_decay.specs.Changes.{or_change, maybe_change, both_change, xor_change, max_change, filter_change, not_change, change_of, Serves};

use crate::Change;
use sk_base::Weight;
use sk_query::Form;

/// What stands for an or from now on. `a` and `b` are the greatest weights that are left on its sides.
pub fn or_rule(a: Weight, b: Weight, a_ended: bool, b_ended: bool, need: Weight) -> Change
    requires { a + b < 2 ^ 127 }
    ensures table { result ≡ or_change a b a_ended b_ended need }
    ensures serves { Serves result Form.Or a b a_ended b_ended need }
{
    if a_ended {
        if b_ended {
            return Change::Nothing;
        }
        return Change::Second;
    }
    if b_ended {
        return Change::First;
    }
    if a + b < need {
        return Change::Nothing;
    }
    if b < need {
        if a < need {
            return Change::Both;
        }
        return Change::Maybe;
    }
    if a < need {
        return Change::MaybeSwap;
    }
    Change::Keep
}

/// What stands for an and_maybe from now on. `a` and `b` are the greatest weights that are left on its sides.
pub fn maybe_rule(a: Weight, b: Weight, a_ended: bool, b_ended: bool, need: Weight) -> Change
    requires { a + b < 2 ^ 127 }
    ensures table { result ≡ maybe_change a b a_ended b_ended need }
    ensures serves { Serves result Form.AndMaybe a b a_ended b_ended need }
{
    if a_ended {
        return Change::Nothing;
    }
    if a + b < need {
        return Change::Nothing;
    }
    if b_ended {
        return Change::First;
    }
    if a < need {
        return Change::Both;
    }
    Change::Keep
}

/// What stands for an and from now on. `a` and `b` are the greatest weights that are left on its sides.
pub fn both_rule(a: Weight, b: Weight, a_ended: bool, b_ended: bool, need: Weight) -> Change
    requires { a + b < 2 ^ 127 }
    ensures table { result ≡ both_change a b a_ended b_ended need }
    ensures serves { Serves result Form.And a b a_ended b_ended need }
{
    if a_ended {
        return Change::Nothing;
    }
    if b_ended {
        return Change::Nothing;
    }
    if a + b < need {
        return Change::Nothing;
    }
    Change::Keep
}

/// What stands for an xor of two sides from now on. `a` and `b` are the greatest weights that are left on its sides.
pub fn xor_rule(a: Weight, b: Weight, a_ended: bool, b_ended: bool, need: Weight) -> Change
    requires { a + b < 2 ^ 127 }
    ensures table { result ≡ xor_change a b a_ended b_ended need }
    ensures serves { Serves result Form.Xor a b a_ended b_ended need }
{
    if a_ended {
        if b_ended {
            return Change::Nothing;
        }
        return Change::Second;
    }
    if b_ended {
        return Change::First;
    }
    if b < need {
        if a < need {
            return Change::Nothing;
        }
        return Change::Not;
    }
    if a < need {
        return Change::NotSwap;
    }
    Change::Keep
}

/// What stands for a max from now on. `a` and `b` are the greatest weights that are left on its sides.
pub fn max_rule(a: Weight, b: Weight, a_ended: bool, b_ended: bool, need: Weight) -> Change
    requires { a + b < 2 ^ 127 }
    ensures table { result ≡ max_change a b a_ended b_ended need }
    ensures serves { Serves result Form.Max a b a_ended b_ended need }
{
    if a_ended {
        if b_ended {
            return Change::Nothing;
        }
        return Change::Second;
    }
    if b_ended {
        return Change::First;
    }
    if a < need {
        if b < need {
            return Change::Nothing;
        }
        return Change::Second;
    }
    if b < need {
        return Change::First;
    }
    Change::Keep
}

/// What stands for a filter from now on. `a` and `b` are the greatest weights that are left on its sides.
pub fn filter_rule(a: Weight, b: Weight, a_ended: bool, b_ended: bool, need: Weight) -> Change
    requires { a + b < 2 ^ 127 }
    ensures table { result ≡ filter_change a b a_ended b_ended need }
    ensures serves { Serves result Form.Filter a b a_ended b_ended need }
{
    if a_ended {
        return Change::Nothing;
    }
    if b_ended {
        return Change::Nothing;
    }
    if a < need {
        return Change::Nothing;
    }
    Change::Keep
}

/// What stands for an and_not from now on. `a` and `b` are the greatest weights that are left on its sides.
pub fn not_rule(a: Weight, b: Weight, a_ended: bool, b_ended: bool, need: Weight) -> Change
    requires { a + b < 2 ^ 127 }
    ensures table { result ≡ not_change a b a_ended b_ended need }
    ensures serves { Serves result Form.AndNot a b a_ended b_ended need }
{
    if a_ended {
        return Change::Nothing;
    }
    if a < need {
        return Change::Nothing;
    }
    if b_ended {
        return Change::First;
    }
    Change::Keep
}

/// The change that the table of the form says.
pub fn rule(form: Form, a: Weight, b: Weight, a_ended: bool, b_ended: bool, need: Weight) -> Change
    requires { a + b < 2 ^ 127 }
    ensures table { result ≡ change_of form a b a_ended b_ended need }
    ensures serves { Serves result form a b a_ended b_ended need }
{
    match form {
        Form::And => both_rule(a, b, a_ended, b_ended, need),
        Form::Or => or_rule(a, b, a_ended, b_ended, need),
        Form::Xor => xor_rule(a, b, a_ended, b_ended, need),
        Form::Max => max_rule(a, b, a_ended, b_ended, need),
        Form::AndNot => not_rule(a, b, a_ended, b_ended, need),
        Form::AndMaybe => maybe_rule(a, b, a_ended, b_ended, need),
        Form::Filter => filter_rule(a, b, a_ended, b_ended, need),
    }
}
