// Numbers of steps by thresholds: how many a sum has reached, told by the start of its stretch and the next thresholds.
ghost use Rattle.std.specs.Prelude.{◌≡◌, ◌+◌, ◌≤◌, ◌<◌, length};
ghost use Rattle.energy.specs.Energies.{u, Summed};
ghost use Rattle.energy.specs.Tabled.{Stepped, stretch_of, missed_by, missed_at, reach};

use crate::lent::{Cell, RatingTables};

// Whether a threshold lies above a sum, as a number: told by the threshold's low 32 bits, where the two lie within 2^31.
#[tactic(auto, unfolding(crate::specs::Tabled::missed_by))]
pub fn missed(s: u64, low: u32) -> u32
    requires { s < 17179869184 }
    ensures value { result ≡ missed_by s low }
    ensures upper_bound { result ≤ 1 }
{
    ((s + 4294967296 - u64::from(low)) / 2147483648 % 2) as u32
}

// How many of the three thresholds from place i on lie above a sum.
fn missed_of_three(cells: &[Cell], i: usize, s: u64) -> u32
    requires i_in_bounds { i + 3 ≤ length cells.now }
    requires s_bound { s < 17179869184 }
    ensures { result ≡ missed_at s cells.now i + missed_at s cells.now (i + 1) + missed_at s cells.now (i + 2) }
{
    missed(s, cells[i]) + missed(s, cells[i + 1]) + missed(s, cells[i + 2])
}

// The stretch that a sum lies in: they are 2^26 long up to 2^32, and 2^28 from there on.
#[tactic(auto, unfolding(crate::specs::Tabled::stretch_of))]
fn stretch(s: u64) -> usize
    requires { Summed s }
    ensures { result ≡ stretch_of s }
{
    if s < 4294967296 {
        (s / 67108864 - 14) as usize
    } else {
        (s / 268435456 + 34) as usize
    }
}

// Where what follows F stands.
fn behind(many: bool) -> usize
    ensures { result ≡ reach many }
{
    if many { 901 } else { 100 }
}

// u(S): the tenths that a sum of energies stands above one band alone. No stretch holds more than three thresholds.
#[tactic(auto, using(crate::proofs::Counted::reach_most, crate::proofs::Starts::stretch_among))]
pub fn level(cells: &[Cell], many: bool, s: u64) -> u32
    requires summed { Summed s }
    requires stepped { Stepped many cells.now }
    ensures { result ≡ u s }
{
    let at = behind(many);
    let below = cells[at + 123 + stretch(s)];
    below + 3 - missed_of_three(cells, at + below as usize, s)
}

impl<'a> RatingTables<'a> {
    // u(S).
    pub fn level(self, s: u64) -> u32
        requires { Summed s }
        ensures { result ≡ u s }
    {
        level(self.cells, self.many, s)
    }
}
