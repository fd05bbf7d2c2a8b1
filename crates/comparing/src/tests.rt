// What differs is counted, and each round draws numbers of its own.
use crate::comparisons::compare;
use crate::random::Random;
use std::alloc::{AllocError, Global};
use std::test::Fail;

// Of the first eight numbers that this seed gives, the second and the sixth are odd.
#[test]
fn odd_numbers_differ(rt: HostRuntime) -> Result<(), Fail> {
    let is_even = |_heap: Global, random: &mut Random| -> Result<bool, AllocError> {
        Ok(random.below(2) == 0)
    };
    let tally = compare(rt.alloc(), 1, 8, is_even)?;
    assert_eq!(rt; tally.compared, 8);
    assert_eq!(rt; tally.differ, 2);
    Ok(())
}
