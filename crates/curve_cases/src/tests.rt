// That the comparisons tell apart what differs.
use crate::by_kwh::ByKwh;
use crate::compare::{FAR, same_prices};
use crate::counts::Priced;
use curves::Tariff;
use std::test::Fail;

const RATE: u32 = 300;

#[test]
fn one_price_that_differs(rt: HostRuntime) -> Result<(), Fail> {
    let tariff = Tariff { rate: RATE };
    let right = tariff.by_kwh(rt.alloc(), 0)?;
    let mut wrong = tariff.by_kwh(rt.alloc(), FAR)?;
    assert!(rt; same_prices(&tariff, right.as_slice(), right.as_slice()));
    if let Some(last) = wrong.last_mut() {
        *last = RATE + 1;
    }
    assert!(rt; !same_prices(&tariff, wrong.as_slice(), right.as_slice()));
    assert!(rt; !same_prices(&tariff, right.as_slice(), wrong.as_slice()));
    Ok(())
}

#[test]
fn one_count_that_differs(rt: HostRuntime) -> Result<(), Fail> {
    let offer = Tariff { rate: RATE };
    let prices = offer.by_kwh(rt.alloc(), 0)?;
    let mut priced = Priced { offer, prices };
    assert!(rt; priced.same_counts());
    if let Some(last) = priced.prices.last_mut() {
        *last = RATE + 1;
    }
    assert!(rt; !priced.same_counts());
    Ok(())
}
