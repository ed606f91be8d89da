// What lifting each band takes off the total of deficits at a position. Values and positions are counted as the rating counts
// them: a better band has a greater level, a stricter position a greater p, and the deficit is 10 p less the level.
ghost use Rattle.std.specs.Prelude.{◌≡◌, true, ℕ, ◌-◌, ◌≤◌, ◌<◌};
ghost use Rattle.quantity.specs.Quantities.{in_range};
ghost use Rattle.curve.specs.Bands.{accepted};
ghost use Rattle.curve.specs.Levels.{at, level_by, Countable, Entries};
ghost use Rattle.sets.specs.Highest.{highest};
ghost use Rattle.sets.specs.Gains.{Gained};

use curve::Position;
use curve::levels::{counted, level_of};
use quantity::{BandSet, Decibels, Tenths};

// The gain of each band, and the total of the deficits.
#[derive(Clone, Copy)]
pub struct Gains {
    pub each: [u32; 16],
    pub total: u32,
}

// The position that rates a target, the position that rates 0 dB given.
pub fn position_at(target: Decibels, airborne: bool, origin: Position) -> Position
    requires { Countable airborne target.0 origin.0 }
    ensures { result.0 ≡ level_by airborne target.0 origin.0 }
{
    Position(counted(target.0, airborne, origin.0))
}

// The deficit of one band at ten times a position.
fn lacking(value: Tenths, airborne: bool, entry: u32, height: u32) -> u32
    requires ranged { in_range value.0 ≡ true }
    requires entries { Entries airborne entry }
    ensures { result ≡ height - level_by airborne value.0 entry }
{
    height.saturating_sub(level_of(value, airborne, entry))
}

// The value of a lifted band.
fn best(airborne: bool) -> Tenths
    ensures { result.0 ≡ highest airborne }
{
    if airborne { Tenths(1500) } else { Tenths(-200) }
}

// The gain of each of the first `bands` bands at position p, and the total of their deficits there.
pub fn gains_at(
    set: BandSet,
    bands: usize,
    airborne: bool,
    entries: [u32; 16],
    p: Position,
) -> Gains
    requires bands_bound { bands ≤ 16 }
    requires set_accepted { accepted set bands ≡ true }
    requires each_entry { (i : ℕ) → i < 16 → Entries airborne (at entries i) }
    requires p_bound { p.0 < 500 }
    ensures { Gained airborne set entries bands p.0 result.each result.total }
{
    let highest = best(airborne);
    let height = p.tenths();
    let mut each = [0u32; 16];
    let mut total = 0;
    for i in 0..bands {
        let value = set.values[i];
        let now = lacking(value, airborne, entries[i], height);
        let lifted = lacking(highest, airborne, entries[i], height);
        each[i] = now - lifted;
        total += now;
    }
    Gains { each, total }
}
