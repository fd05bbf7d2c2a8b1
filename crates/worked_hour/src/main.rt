// The worked hour, from opening to release.
#![tactic(auto)]

mod examples;
mod worked;

use std::io;

fn main(rt: HostRuntime) -> io::Result<()> {
    examples::worked_examples();
    match worked::worked_figures() {
        Ok(figures) => rt.print(figures),
        Err(refused) => println!(rt; "refused: {refused}"),
    }
}
