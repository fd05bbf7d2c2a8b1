// A comparison of pseudo-random cases.
ghost use Rattle.std.specs.Prelude.{◌≡◌, ◌≤◌, IfOk};

use crate::random::Random;
use crate::tallies::Tally;
use std::alloc::Global;

/// Calls `is_same` so many `times`, with the heap and with numbers drawn from `seed`, and counts the calls and those
/// that answer false. The first error of a call ends it and is the answer.
pub fn compare<E, F: Fn(Global, &mut Random) -> Result<bool, E>>(
    heap: Global,
    seed: u64,
    times: u32,
    is_same: F,
) -> Result<Tally, E>
    requires { F.IsAlwaysCallable is_same }
    ensures compared { IfOk result (λ tally. tally.compared ≡ times) }
    ensures differ { IfOk result (λ tally. tally.differ ≤ times) }
{
    let mut random = Random::new(seed);
    let mut tally = Tally::default();
    for _ in 0..times {
        tally.note(is_same(heap, &mut random)?);
    }
    Ok(tally)
}
