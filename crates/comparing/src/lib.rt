// What programs share that compare the engine with a second calculation: pseudo-random numbers, and counts of what
// differs.
#![tactic(auto)]

mod comparisons;
mod random;
mod tallies;
#[cfg(test)]
mod tests;

pub use comparisons::compare;
pub use random::Random;
pub use tallies::{Finding, Tally};
