// Compares the split of pseudo-random groups with a second calculation that goes kWh by kWh.
#![tactic(auto)]

mod by_kwh;
mod cases;
mod compare;
mod failures;
mod offers;
mod outcomes;
mod single;
#[cfg(test)]
mod tests;

use compare::{compare_curves, compare_splits};
use comparing::{Finding, Tally};
use curves::{SteppedOffer, Tariff};
use single::Single;
use std::io;

fn main(rt: HostRuntime) -> anyhow::Result<()> {
    let heap = rt.alloc();
    let stepped = compare_splits::<SteppedOffer>(heap, 400, 4)?;
    show(&rt, "stepped", stepped)?;
    let tariff = compare_splits::<Tariff>(heap, 100, 1)?;
    show(&rt, "tariff", tariff)?;
    let single = compare_splits::<Single>(heap, 100, 4)?;
    show(&rt, "single-kWh stretches", single)?;
    let curves = compare_curves(heap, 100, 4)?;
    show(&rt, "costs and counts of single-kWh stretches", curves)?;
    Ok(())
}

fn show(rt: &HostRuntime, subject: &str, tally: Tally) -> io::Result<()> {
    let found = Finding {
        subject,
        things: "groups",
        tally,
    };
    println!(rt; "{found}")
}
