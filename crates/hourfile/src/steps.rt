// The step lists of a competitive unit.
ghost use Rattle.std.specs.Prelude.{◌≡◌, ◌≤◌, ◌/◌, length, take};
ghost use Rattle.curves.specs.Refusals.{stepped_made};
ghost use Rattle.hourfile.specs.Words.{words};
ghost use Rattle.hourfile.specs.Calls.{step_at, steps_of};

use crate::words::{Word, value_at};
use curves::{CurveRefusal, MAX_STEPS, Step, Stepped};
use std::array;

// The step at a place of a list: its width and its price.
fn step_at(values: &[Word], place: usize) -> Step
    requires { place ≤ 10 }
    ensures { result ≡ step_at (words values.now) place }
{
    Step {
        width: value_at(values, 2 * place),
        price: value_at(values, 2 * place + 1),
    }
}

// The first ten steps of a list; a step past its end has width 0 and price 0.
fn first_steps(values: &[Word]) -> [Step; MAX_STEPS]
    ensures { length values.now / 2 ≤ 10 → take (length values.now / 2) result ≡ steps_of (words values.now) }
{
    array::from_fn(|place| step_at(values, place))
}

/// The curve of a list of steps, two values each: a width in kWh and a price in rial per MWh. A last value
/// without a partner is left out. `Err` is the list's refusal, 8 or 9; over ten steps are 8.
pub fn stepped<const RISES: bool>(values: &[Word]) -> Result<Stepped<RISES>, CurveRefusal>
    ensures { result ≡ stepped_made RISES (steps_of (words values.now)) }
{
    let count = values.len() / 2;
    if count > MAX_STEPS {
        return Err(CurveRefusal::Steps);
    }
    Stepped::new(&first_steps(values)[..count])
}
