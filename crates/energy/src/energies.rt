// The scaled powers F(d): the energy, in billionths, of what lies d tenths below the greatest.
ghost use Rattle.std.specs.Prelude.{false, ◌≡◌, ◌/◌, ◌^◌, ◌≤◌, ◌<◌};
ghost use Rattle.energy.specs.Energies.{F};
ghost use Rattle.energy.specs.Tabled.{Scaled, inverse_of};

use crate::lent::{Cell, MeanTables, RatingTables};

// The factor that divides by 10^k, times 2^(33 + 3k). A `match` is no array: nothing is laid out for it; and with an arm for
// each of the ten, no test is left in the code: the last is never taken.
#[tactic(auto, unfolding(crate::specs::Tabled::inverse_of))]
fn inverse(k: u32) -> u64
    requires { k < 10 }
    ensures { result ≡ inverse_of k }
{
    match k {
        0 => 8589934593,
        1 => 6871947674,
        2 => 5497558139,
        3 => 4398046512,
        4 => 3518437209,
        5 => 2814749768,
        6 => 2251799814,
        7 => 1801439851,
        8 => 1441151881,
        9 => 1152921505,
        _ => 0,
    }
}

// A number of the table, divided by ten k times: one product for every k, where a division by a constant for each is a branch.
fn divided(n: u32, k: u32) -> u32
    requires { (n ≤ 1000000000) × (k < 10) }
    ensures { result ≡ n / 10 ^ k }
{
    ((u64::from(n) * inverse(k)) >> (33 + 3 * k)) as u32
}

// F(d) by its first hundred numbers: the one at d mod 100, divided by ten for each hundred of d; above 900 it is 0.
fn by_hundreds(cells: &[Cell], d: u32) -> u32
    requires { Scaled false cells.now }
    ensures { result ≡ F d }
{
    if 900 < d {
        return 0;
    }
    divided(cells[(d % 100) as usize], d / 100)
}

// F(d), in cells that begin with its numbers: in those for many sets it stands as it is.
pub fn energy(cells: &[Cell], many: bool, d: u32) -> u32
    requires { Scaled many cells.now }
    ensures { result ≡ F d }
{
    if !many {
        return by_hundreds(cells, d);
    }
    if 900 < d {
        return 0;
    }
    cells[d as usize]
}

// What F is read from: the tables of ratings, those of means, or a caller's own.
pub trait Energies: Copy {
    // F(d).
    fn energy(self, d: u32) -> u32
        ensures { result ≡ F d };
}

impl<'a> Energies for RatingTables<'a> {
    fn energy(self, d: u32) -> u32 {
        energy(self.cells, self.many, d)
    }
}

impl<'a> Energies for MeanTables<'a> {
    fn energy(self, d: u32) -> u32 {
        by_hundreds(self.cells, d)
    }
}
