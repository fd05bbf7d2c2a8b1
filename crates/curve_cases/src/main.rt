// Compares every kind of curve with a second calculation that goes kWh by kWh.
#![tactic(auto)]

mod by_kwh;
mod compare;
mod counts;
mod draws;
mod refusals;
#[cfg(test)]
mod tests;

use compare::{KindTally, compare_kind};
use comparing::{Finding, Tally};
use counts::compare_counts;
use curves::{SteppedCost, SteppedOffer, Tariff};
use refusals::{compare_lists, compare_rates};
use std::io;

fn main(rt: HostRuntime) -> anyhow::Result<()> {
    let heap = rt.alloc();
    let kind = "stepped offer";
    show_kind(&rt, kind, compare_kind::<SteppedOffer>(heap, 200)?)?;
    let counted = compare_counts::<SteppedOffer>(heap, 100)?;
    show(&rt, kind, "counted curves", counted)?;
    show(&rt, kind, "lists", compare_lists::<true>(heap, 500)?)?;
    let kind = "stepped cost";
    show_kind(&rt, kind, compare_kind::<SteppedCost>(heap, 200)?)?;
    show(&rt, kind, "lists", compare_lists::<false>(heap, 500)?)?;
    let kind = "tariff";
    show_kind(&rt, kind, compare_kind::<Tariff>(heap, 50)?)?;
    let counted = compare_counts::<Tariff>(heap, 50)?;
    show(&rt, kind, "counted curves", counted)?;
    show(&rt, kind, "rates", compare_rates(heap, 100)?)?;
    Ok(())
}

fn show_kind(rt: &HostRuntime, kind: &str, tally: KindTally) -> io::Result<()> {
    show(rt, kind, "curves", tally.own)?;
    show(rt, kind, "modified curves", tally.modified)?;
    show(rt, kind, "raised curves", tally.raised)?;
    show(rt, kind, "raised and modified curves", tally.both)
}

fn show(rt: &HostRuntime, subject: &str, things: &str, tally: Tally) -> io::Result<()> {
    let found = Finding {
        subject,
        things,
        tally,
    };
    println!(rt; "{found}")
}
