// A worked example of a split.
ghost use Rattle.std.specs.Prelude.{◌≡◌, [], ◌∷◌};
ghost use Rattle.allocation.specs.TwoUnits.{WorkedExample, step};

use crate::fill::split;
use curves::{Step, SteppedOffer};

fn step(width: u32, price: u32) -> Step
    ensures { result ≡ step width price }
{
    Step { width, price }
}

/// Splits 150 kWh over two units with the limit 100: one offers 50 kWh at 300 rial per MWh and then 500, the other 80
/// kWh at 400 and then 500. Answers their amounts, 70 and 80 kWh.
pub fn worked_example() -> [u32; 2]
    ensures stands { WorkedExample }
    ensures amounts { result ≡ 70 ∷ (80 ∷ []) }
{
    let first = SteppedOffer::new(&[step(50, 300), step(50, 500)]).unwrap();
    let second = SteppedOffer::new(&[step(80, 400), step(20, 500)]).unwrap();
    let mut amounts = [0u32; 2];
    let _uncovered = split(&[first, second], &[100, 100], 150, &mut amounts);
    amounts
}
