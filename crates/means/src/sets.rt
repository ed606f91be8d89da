// Means of three: octaves from thirds, and the means of three specimens.
ghost use Rattle.std.specs.Prelude.{◌≡◌, true, ℕ, ◌+◌, ◌*◌, ◌≤◌, ◌<◌, length};
ghost use Rattle.quantity.specs.Quantities.{in_range};
ghost use Rattle.measurement.specs.Lists.{weight_of};
ghost use Rattle.laws.specs.Tests.{bit};
ghost use Rattle.means.specs.Means.{mean_of₃};
ghost use Rattle.means.specs.Sets.{marked₃, placed, means_of, octaves_of, specimens_of};

use curve::levels::all_in_range;
use energy::{MeanTables, mean_tables};
use kinds::{A1Kind, A3Kind, RatingKind};
use measurement::take_all;
use quantity::signed::{above, less};
use quantity::{BandSet, Reading, Refusal, Tenths};

// The readings of three specimens.
const READINGS: usize = 3 * A3Kind::BANDS;

// The mean of three band values, each counted from -20.0 dB.
fn mean(x: Tenths, y: Tenths, z: Tenths, tables: MeanTables) -> Tenths
    requires { (in_range x.0 ≡ true) × (in_range y.0 ≡ true) × (in_range z.0 ≡ true) }
    ensures { result.0 ≡ mean_of₃ x.0 y.0 z.0 }
{
    let counted = tables.mean_of_three(above(x.0, 200), above(y.0, 200), above(z.0, 200));
    Tenths(less(counted, 200))
}

// Whether bit i of the marks is set.
fn marked(marks: u64, i: usize) -> bool
    requires { i < 48 }
    ensures { result ≡ bit marks i }
{
    (marks >> i) % 2 == 1
}

// Whether one of three marks is set: at i, and one and two strides further.
fn marked_of_three(marks: u64, i: usize, stride: usize) -> bool
    requires { i + 2 * stride < 48 }
    ensures { result ≡ marked₃ marks i stride }
{
    marked(marks, i) || marked(marks, i + stride) || marked(marks, i + 2 * stride)
}

// What a limit value adds to the marks at place j.
fn weight(limit: bool, j: usize) -> u16
    requires { j < 16 }
    ensures { result ≡ weight_of limit j }
{
    u16::from(limit) << j
}

// The means of three values each, `count` of them: mean j is of the values at j * step, and one and two strides further.
#[tactic(auto, using(crate::proofs::Thirds::turns))]
fn means(values: &[Tenths], marks: u64, count: usize, step: usize, stride: usize) -> BandSet
    requires count_bound { (count ≤ 16) × (length values.now ≤ 48) }
    requires in_bounds { (j : ℕ) → j < count → j * step + 2 * stride < length values.now }
    requires ranged { (i : ℕ) → i < length values.now → in_range (placed values.now i) ≡ true }
    ensures { result ≡ means_of (placed values.now) marks count step stride }
{
    let cells = mean_tables();
    let tables = MeanTables::of(&cells);
    let mut out = [Tenths(0); 16];
    let mut limits = 0u16;
    for j in 0..count {
        let i = j * step;
        out[j] = mean(
            values[i],
            values[i + stride],
            values[i + 2 * stride],
            tables,
        );
        limits += weight(marked_of_three(marks, i, stride), j);
    }
    BandSet {
        values: out,
        marks: limits,
        len: count,
    }
}

// Five octaves from a set of sixteen thirds: 1 where it has another length, then 4 where a band is out of range.
#[tactic(auto, using(crate::proofs::Thirds::bands_in), unfolding(crate::specs::Sets::octaves_of))]
pub fn octaves(set: BandSet) -> Result<BandSet, Refusal>
    ensures { result ≡ octaves_of set }
{
    if set.len != A3Kind::BANDS {
        return Err(Refusal::BandCount);
    }
    if !all_in_range(set, A3Kind::BANDS) {
        return Err(Refusal::BandRange);
    }
    let means = means(&set.values, u64::from(set.marks), A1Kind::BANDS, 3, 1);
    Ok(means)
}

// The sixteen means of three specimens, given as 48 readings one specimen after the other: 12 where `len` is another number,
// then the refusal of the first reading that is refused.
#[tactic(auto, using(crate::proofs::Thirds::taken_values), unfolding(crate::specs::Sets::specimens_of))]
pub fn specimens(readings: [Reading; 48], len: usize) -> Result<BandSet, Refusal>
    ensures { result ≡ specimens_of readings len }
{
    if len != READINGS {
        return Err(Refusal::SpecimenCount);
    }
    let all = take_all(readings, READINGS)?;
    let means = means(&all.values, all.marks, A3Kind::BANDS, 1, A3Kind::BANDS);
    Ok(means)
}
