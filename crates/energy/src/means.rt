// The mean of three levels by their energies.
ghost use Rattle.std.specs.Prelude.{◌≡◌, ◌<◌};
ghost use Rattle.energy.specs.Means.{v, mean₃};
ghost use Rattle.energy.specs.Tabled.{Summed₃};

use crate::energies::Energies;
use crate::lent::MeanTables;
use crate::steps::missed;

impl<'a> MeanTables<'a> {
    // v(S), for a sum of three: no stretch holds more than two thresholds. Without a branch: which way it goes, nobody could
    // guess.
    #[tactic(auto, using(crate::proofs::Counted::turn_fits))]
    fn step_of_sum(self, s: u64) -> u32
        requires { Summed₃ s }
        ensures { result ≡ v s }
    {
        let t = s - 1;
        let passed = self.cells[150 + (t / 33554432 - 29) as usize];
        let next = 100 + passed as usize;
        46 + missed(t, self.cells[next]) + missed(t, self.cells[next + 1]) - passed
    }

    // The mean of three values, each counted in tenths from one floor.
    pub fn mean_of_three(self, x: u32, y: u32, z: u32) -> u32
        requires { (x < 1000000) × (y < 1000000) × (z < 1000000) }
        ensures { result ≡ mean₃ x y z }
    {
        let m = x.min(y).min(z);
        let s = u64::from(self.energy(x - m))
            + u64::from(self.energy(y - m))
            + u64::from(self.energy(z - m));
        m + self.step_of_sum(s)
    }
}
