// The background correction c and the reverberation steps k.
ghost use Rattle.std.specs.Prelude.{◌≡◌, ◌≤◌, ◌<◌, pos, ◌-ℤ◌};
ghost use Rattle.energy.specs.Corrections.{c, k};

use crate::constants::{BACKGROUND, TIMES};

// c(d): the tenths by which the background raises a total level that stands d above it.
pub fn background(d: u32) -> u32
    requires { (60 ≤ d) × (d < 150) }
    ensures { result ≡ c d }
{
    u32::from(BACKGROUND[(d - 60) as usize])
}

// k(T) + 70, for a time in hundredths of a second: how many of the least times it has reached.
pub fn reverberation(t: u32) -> u32
    requires { (10 ≤ t) × (t ≤ 2000) }
    ensures { pos result -ℤ pos 70 ≡ k t }
{
    TIMES.partition_point(|least| *least <= u64::from(t)) as u32
}
