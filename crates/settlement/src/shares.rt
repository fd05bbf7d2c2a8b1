// Shares of a whole.
ghost use Rattle.std.specs.Prelude.{◌≡◌, ◌≤◌};
ghost use Rattle.settlement.specs.Shares.{running_share, group_one_share, weight_of};

use crate::reference::{MAX_LOSS, WHOLE_PARTS};

/// How much of `whole` falls to `part` of `total`, the fraction dropped; 0 where the total is 0.
pub fn running_share(whole: u64, part: u64, total: u64) -> u128
    ensures { result ≡ running_share whole part total }
{
    if total == 0 {
        return 0;
    }
    whole as u128 * part as u128 / total as u128
}

/// Group 1's share of a plant's commitments, by the declared gross energy of both groups, all in kWh: the fraction is
/// dropped, and where neither group has any it is the whole. Group 2 gets the rest.
pub fn group_one_share(commitments: u32, gross1: u32, gross2: u32) -> u32
    ensures value { result ≡ group_one_share commitments gross1 gross2 }
    ensures bound { result ≤ commitments }
{
    let gross = gross1 as u64 + gross2 as u64;
    if gross == 0 {
        return commitments;
    }
    running_share(commitments as u64, gross1 as u64, gross) as u32
}

/// A buyer's weight: its use, in kWh, with its loss added, the fraction dropped. `loss` is in hundredths of a percent;
/// over 2,000 it is read as 2,000.
pub fn weight(used: u32, loss: u32) -> u64
    ensures value { result ≡ weight_of loss used }
    ensures bound { result ≤ 5153960754 }
{
    used as u64 * (WHOLE_PARTS + loss.min(MAX_LOSS) as u64) / WHOLE_PARTS
}
