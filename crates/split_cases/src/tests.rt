// That the comparisons tell apart what differs.
use crate::cases::{Case, PlainUnit};
use crate::compare::same_curve;
use crate::offers::{FromSteps, offers_of};
use crate::outcomes::Outcome;
use crate::single::Single;
use curves::{Step, SteppedOffer};
use std::alloc::Global;

// A group of one unit, which offers 10 kWh at a price and then 7 at one rial more.
fn group(heap: Global, price: u32, share: u32) -> anyhow::Result<Case> {
    let mut steps = Vec::new(heap);
    steps.push(Step { width: 10, price })?;
    steps.push(Step {
        width: 7,
        price: price.saturating_add(1),
    })?;
    let mut units = Vec::new(heap);
    units.push(PlainUnit { limit: 15, steps })?;
    Ok(Case { units, share })
}

#[test]
fn one_kwh_that_differs(rt: HostRuntime) -> anyhow::Result<()> {
    let heap = rt.alloc();
    let case = group(heap, 300, 12)?;
    let offers = offers_of::<SteppedOffer>(heap, &case)?;
    let split = Outcome::of_offers(heap, &case, offers.as_slice())?;
    assert!(rt; split == Outcome::by_kwh(heap, &case)?);
    assert!(rt; split != Outcome::by_kwh(heap, &group(heap, 300, 13)?)?);
    assert!(rt; split != Outcome::by_kwh(heap, &group(heap, 301, 12)?)?);
    Ok(())
}

#[test]
fn one_price_that_differs(rt: HostRuntime) -> anyhow::Result<()> {
    let steps = [
        Step {
            width: 80,
            price: 300,
        },
        Step {
            width: 9,
            price: 301,
        },
    ];
    let later = [
        Step {
            width: 81,
            price: 300,
        },
        Step {
            width: 9,
            price: 301,
        },
    ];
    let stepped = SteppedOffer::new(&steps)?;
    assert!(rt; same_curve(&stepped, &Single::from_steps(&steps)?));
    assert!(rt; !same_curve(&stepped, &Single::from_steps(&later)?));
    Ok(())
}
