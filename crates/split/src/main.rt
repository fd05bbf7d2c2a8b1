// Splits the shares of a job over the units of a contract group, each share at the least cost.
#![tactic(auto)]

mod faults;
mod job;
mod lines;
#[cfg(test)]
mod many_units;
mod report;
#[cfg(test)]
mod tests;

use std::io;

fn main(rt: HostRuntime) -> io::Result<()> {
    let answer = job::answer_read(rt.alloc(), rt.stdin())?;
    rt.print(answer)
}
