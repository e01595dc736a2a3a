//! The lots that enter, and how many units leave at a time.
ghost use Rattle.std.specs.Prelude.{◌<◌, ◌≤◌};

/// So many units leave at a time, or all that are left where these are fewer.
pub const TAKEN: u64 = 7;

/// The units of a lot, and what they are worth together.
pub fn lot(number: u32) -> (u64, u64)
    ensures units { (50 ≤ result.0) × (result.0 < 150) }
    ensures value { result.1 < 20_000 }
{
    let qty = 50 + u64::from(number % 100);
    (qty, 100 * qty + u64::from(number % 13))
}
