// Prints the answers and figures of hours that a second calculation gives too: calls that are turned down,
// pseudo-random hours, and lists of calls in whatever order.
#![tactic(auto)]

mod calls;
mod drawn_hours;
mod edge_hours;
mod entry_draws;
mod failures;
mod fixed_hours;
mod full_tables;
mod limit_entries;
mod limit_readings;
mod makings;
mod mixed_hours;
mod reading_draws;
mod refusal_texts;
mod report;
mod row_draws;
mod runs;
mod source;
mod told_apart;

use failures::Failure;
use runs::Cases;
use std::alloc::Global;

const HOURS: u32 = 200;

const MIXED_HOURS: u32 = 30;

fn all_cases(heap: Global) -> Result<String, Failure> {
    let mut cases = Cases::new(heap);
    cases.report.makings()?;
    cases.report.refusal_texts()?;
    cases.fixed_hours()?;
    cases.units_without_rows()?;
    for number in 1..=HOURS {
        cases.drawn_hour(number)?;
    }
    for number in 1..=MIXED_HOURS {
        cases.mixed_hour(number)?;
    }
    Ok(cases.report.text)
}

fn main(rt: HostRuntime) -> anyhow::Result<()> {
    let text = all_cases(rt.alloc())?;
    rt.print(text)?;
    Ok(())
}
