// The price row of a competitive unit's values.
ghost use Rattle.std.specs.Prelude.{◌≡◌, ◌*◌, take, drop};
ghost use Rattle.hourfile.specs.Words.{words, value_at};
ghost use Rattle.reader.specs.Progress.{row_made, unit_row};

use crate::kept::UnitRow;
use curves::{CurveRefusal, SteppedCost, SteppedOffer};
use hourfile::{Word, stepped, value_at};

// The values of the steps of the offer, and of the cost curve: those behind the first four, parted after n steps.
fn unit_lists(values: &[Word]) -> (&[Word], &[Word])
    ensures offer { words result.0.now ≡ take (2 * value_at (words values.now) 3) (drop 4 (words values.now)) }
    ensures cost { words result.1.now ≡ drop (2 * value_at (words values.now) 3) (drop 4 (words values.now)) }
{
    let (_, steps) = values.split_at(values.len().min(4));
    let count = value_at(values, 3) as usize * 2;
    steps.split_at(count.min(steps.len()))
}

// The row of two lists, or the refusal of one: 8 of either comes before 9 of either.
fn row_of(
    offer: Result<SteppedOffer, CurveRefusal>,
    cost: Result<SteppedCost, CurveRefusal>,
) -> Result<UnitRow, CurveRefusal>
    ensures { result ≡ row_made offer cost }
{
    match (offer, cost) {
        (Ok(offer), Ok(cost)) => Ok(UnitRow { offer, cost }),
        (Err(CurveRefusal::Steps), _) | (_, Err(CurveRefusal::Steps)) => Err(CurveRefusal::Steps),
        _ => Err(CurveRefusal::Price),
    }
}

/// The row of a competitive unit's values, or 8 or 9 where one of its step lists is refused.
pub(crate) fn unit_row(values: &[Word]) -> Result<UnitRow, CurveRefusal>
    ensures { result ≡ unit_row (words values.now) }
{
    let (offer, cost) = unit_lists(values);
    row_of(stepped::<true>(offer), stepped::<false>(cost))
}
