// Compares which lists of steps and which rates are refused.
use crate::by_kwh::{LAST_KWH, TOP_PRICE, expanded};
use crate::compare::{FAR, same_prices};
use crate::draws::{RATES_END, any_list, any_price};
use comparing::{Random, Tally, compare};
use curves::{Curve, Step, Stepped, Tariff};
use std::alloc::{AllocError, Global};

/// Compares what is made of pseudo-random lists of steps.
pub(crate) fn compare_lists<const RISES: bool>(
    heap: Global,
    lists: u32,
) -> Result<Tally, AllocError> {
    compare(heap, 3, lists, same_drawn::<RISES>)
}

fn same_drawn<const RISES: bool>(heap: Global, random: &mut Random) -> Result<bool, AllocError> {
    let list = any_list(heap, random)?;
    same_made::<RISES>(heap, list.as_slice())
}

fn same_made<const RISES: bool>(heap: Global, list: &[Step]) -> Result<bool, AllocError> {
    let expected = refusal_number(RISES, list);
    match Stepped::<RISES>::new(list) {
        Ok(curve) => {
            let near = expanded(heap, list, 0)?;
            let far = expanded(heap, list, FAR)?;
            Ok(expected.is_none() && same_prices(&curve, near.as_slice(), far.as_slice()))
        }
        Err(refusal) => Ok(expected == Some(refusal.number())),
    }
}

// The number of the refusal of a list of steps, 8 for the steps and 9 for a price; None where it is accepted. The
// numbers that callers get are compared with it.
fn refusal_number(rises: bool, list: &[Step]) -> Option<u32> {
    let falls = !list.is_sorted_by_key(|step| step.price);
    let widths_fit = list.iter().all(|step| (1..=LAST_KWH).contains(&step.width));
    if list.is_empty() || list.len() > 10 || !widths_fit || rises && falls {
        Some(8)
    } else if list.iter().any(|step| step.price > TOP_PRICE) {
        Some(9)
    } else {
        None
    }
}

/// Compares what is made of pseudo-random rates.
pub(crate) fn compare_rates(heap: Global, rates: u32) -> Result<Tally, AllocError> {
    compare(
        heap,
        4,
        rates,
        |_, random| Ok(same_tariff(any_price(random, RATES_END))),
    )
}

fn same_tariff(rate: u32) -> bool {
    match Tariff::new(rate) {
        Ok(tariff) => rate <= TOP_PRICE
            && tariff.price(1) == rate
            && tariff.price(LAST_KWH) == rate,
        Err(refusal) => rate > TOP_PRICE && refusal.number() == 9,
    }
}
