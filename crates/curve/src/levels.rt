// The shared rating over levels: sums, the search for the accepted position, and the sum of energies.
ghost use Rattle.std.specs.Prelude.{◌≡◌, true, ℕ, ◌≤◌, ◌<◌, length, get_or};
ghost use Rattle.laws.specs.Sums.{sum_to};
ghost use Rattle.quantity.specs.Quantities.{in_range};
ghost use Rattle.curve.specs.Bands.{accepted};
ghost use Rattle.curve.specs.Levels.{level_by, Countable, Entries, plain_at, Ranged, Levels, at, total_at, least_of, energies_of, Settled};

use crate::positions::Position;
use energy::Energies;
use quantity::signed::{above, below};
use quantity::{BandSet, Tenths};

// Where the search ended, and how many shifts it made.
#[derive(Clone, Copy)]
pub struct Accepted {
    pub at: Position,
    pub shifts: u32,
}

// Whether the first `bands` values of the set are all in range. Without a way out of the loop, so that several are looked at at
// once.
#[tactic(auto, unfolding(crate::specs::Bands::accepted, laws::specs::Tests::all_to))]
pub fn all_in_range(set: BandSet, bands: usize) -> bool
    requires { bands ≤ 16 }
    ensures { result ≡ accepted set bands }
{
    let mut all = true;
    for value in &set.values[..bands] {
        all &= value.in_range();
    }
    all
}

// What a number is counted from an origin: above it for airborne, below it for impact.
pub fn counted(z: i32, airborne: bool, origin: u32) -> u32
    requires { Countable airborne z origin }
    ensures { result ≡ level_by airborne z origin }
{
    if airborne {
        above(z, origin)
    } else {
        below(z, origin)
    }
}

// The level of one band, counted from its entry.
#[tactic(auto, using(crate::proofs::Counted::countable))]
pub fn level_of(value: Tenths, airborne: bool, entry: u32) -> u32
    requires ranged { in_range value.0 ≡ true }
    requires entries { Entries airborne entry }
    ensures { result ≡ level_by airborne value.0 entry }
{
    counted(value.0, airborne, entry)
}

// The levels of the values, counted from the entries.
pub fn levels(values: &[Tenths], airborne: bool, entries: [u32; 16]) -> [u32; 16]
    requires bands_bound { length values.now ≤ 16 }
    requires ranged { Ranged values.now (length values.now) }
    requires each_entry { (i : ℕ) → i < 16 → Entries airborne (get_or entries i 0) }
    ensures { Levels airborne (plain_at values.now) entries (length values.now) result }
{
    let mut out = [0u32; 16];
    for i in 0..values.len() {
        out[i] = level_of(values[i], airborne, entries[i]);
    }
    out
}

// The sum of the levels.
#[tactic(auto, unfolding(laws::specs::Sums::sum_to))]
pub fn sum(levels: &[u32]) -> u32
    requires bands_bound { length levels.now ≤ 16 }
    requires each_small { (i : ℕ) → i < length levels.now → at levels.now i < 10000 }
    ensures { result ≡ sum_to (at levels.now) (length levels.now) }
{
    let mut sum = 0;
    for level in levels {
        sum += *level;
    }
    sum
}

// The total of the deficits at position p.
#[tactic(auto, unfolding(crate::specs::Levels::total_at, laws::specs::Sums::sum_to))]
pub fn total(levels: &[u32], p: Position) -> u32
    requires bands_bound { length levels.now ≤ 16 }
    requires p_bound { p.0 < 500 }
    ensures { result ≡ total_at (at levels.now) (length levels.now) p.0 }
{
    let height = p.tenths();
    let mut total = 0;
    for level in levels {
        total += height.saturating_sub(*level);
    }
    total
}

// From the start, position by position, to the first whose total is within the limit. At position 0 the total is 0.
pub fn settle(levels: &[u32], limit: u32, start: Position) -> Accepted
    requires bands_bound { length levels.now ≤ 16 }
    requires start_bound { start.0 < 500 }
    ensures { Settled (at levels.now) (length levels.now) limit start.0 result.at.0 result.shifts }
{
    let mut p = start;
    let mut shifts = 0;
    while limit < total(levels, p) {
        p = p.eased();
        shifts += 1;
    }
    Accepted { at: p, shifts }
}

// The least level. The walk looks at the first level once more, so that it goes over sixteen and several are looked at at once.
#[tactic(auto, unfolding(crate::specs::Levels::least_of, crate::specs::Levels::min_to))]
pub fn least(levels: &[u32]) -> u32
    requires { 1 ≤ length levels.now }
    ensures { result ≡ least_of (at levels.now) (length levels.now) }
{
    let mut least = levels[0];
    for level in levels {
        least = least.min(*level);
    }
    least
}

// The sum of the energies of the levels, m the least of them, by any tables that tell F.
#[tactic(auto, unfolding(crate::specs::Levels::energies_of, laws::specs::Sums::sum_to))]
pub fn energies<T: Energies>(levels: &[u32], m: u32, tables: T) -> u64
    requires bands_bound { length levels.now ≤ 16 }
    requires least { (i : ℕ) → i < length levels.now → m ≤ at levels.now i }
    ensures { result ≡ energies_of (at levels.now) (length levels.now) m }
{
    let mut sum = 0u64;
    for level in levels {
        sum += u64::from(tables.energy(*level - m));
    }
    sum
}
