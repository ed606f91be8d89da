// Readings and ratings.
ghost use Rattle.std.specs.Prelude.{◌≡◌};
ghost use Rattle.desk.specs.Quantities.{taken_of};
ghost use Rattle.desk.specs.Answers.{taken_answer, rated_answer};
ghost use Rattle.desk.specs.Calls.{rated_of, readings_rated};

use intake::Taken;
use kinds::{Kind, bands_of};
use measurement::take_list;
use quantity::{BandSet, Reading, Refusal};
use rating::Sheet;

// One reading in tenths with its limit mark, or 3, 2, 4 in that order.
pub fn take_reading(reading: Reading) -> Result<Taken, Refusal>
    ensures { taken_answer result ≡ taken_answer (taken_of reading) }
{
    intake::take_reading(reading)
}

// The sheet of a set of tenths: 1 where its length is not the kind's, then 4 for the lowest band out of range.
pub fn rate(kind: Kind, set: BandSet) -> Result<Sheet, Refusal>
    ensures { rated_answer result ≡ rated_answer (rated_of kind set) }
{
    rating::rate(kind, set)
}

// The sheet of a list of readings, `len` of them stated: 1, then the bands from the lowest, each 3, 2, 4.
pub fn rate_readings(kind: Kind, readings: [Reading; 48], len: usize) -> Result<Sheet, Refusal>
    ensures { rated_answer result ≡ rated_answer (readings_rated kind readings len) }
{
    let taken = take_list(readings, len, bands_of(kind))?;
    rating::rate(kind, taken)
}
