// Differences that may be negative.
ghost use Rattle.std.specs.Prelude.{◌≡◌, ◌≤◌, pos, ◌-ℤ◌};

pub(crate) fn difference(one: u64, other: u64) -> i64
    requires { (one ≤ 9223372036854775807) × (other ≤ 9223372036854775807) }
    ensures { result ≡ pos one -ℤ pos other }
{
    one as i64 - other as i64
}
