// One reading, one reverberation time.
ghost use Rattle.std.specs.Prelude.{◌≡◌};
ghost use Rattle.intake.specs.Taken.{float_taken, taken_of};
ghost use Rattle.intake.specs.Times.{in_time, time_of};

use crate::rounding::{Whole, round};
use quantity::signed::above;
use quantity::{Hundredths, Reading, Refusal, Tenths};

// What intake makes of a reading: its tenths, and whether it is a limit value.
#[derive(Clone, Copy)]
pub struct Taken {
    pub value: Tenths,
    pub limit: bool,
}

// A float as a band value in tenths, with the mark that its reading bears. The range is tested after rounding.
#[tactic(auto, using(crate::proofs::Ranges::taken_read))]
pub fn take_float(x: f32, limit: bool) -> Result<Taken, Refusal>
    ensures { result ≡ float_taken limit x }
{
    match round(x, 10) {
        Whole::Units(t) if Tenths(t).in_range() => Ok(Taken {
            value: Tenths(t),
            limit,
        }),
        Whole::Units(_) | Whole::Beyond => Err(Refusal::BandRange),
        Whole::NotFinite => Err(Refusal::NotFinite),
    }
}

// A reading as a band value: a missing one is refused before its float could be.
#[tactic(auto, unfolding(crate::specs::Taken::taken_of))]
pub fn take_reading(reading: Reading) -> Result<Taken, Refusal>
    ensures { result ≡ taken_of reading }
{
    match reading {
        Reading::Level(x) => take_float(x, false),
        Reading::Limit(x) => take_float(x, true),
        Reading::Missing => Err(Refusal::ReadingMissing),
    }
}

// Whether so many hundredths of a second are a time: 0.10 to 20.00 s.
#[tactic(auto, unfolding(crate::specs::Times::in_time))]
fn in_time(hundredths: i32) -> bool
    ensures { result ≡ in_time hundredths }
{
    10 <= hundredths && hundredths <= 2000
}

// A float in seconds as hundredths of a second, 0.10 to 20.00 s. The range is tested after rounding.
#[tactic(auto, using(crate::proofs::Ranges::time_read), unfolding(crate::specs::Times::in_time))]
pub fn take_time(x: f32) -> Result<Hundredths, Refusal>
    ensures { result ≡ time_of x }
{
    match round(x, 100) {
        Whole::Units(t) if in_time(t) => Ok(Hundredths(above(t, 0))),
        Whole::Units(_) | Whole::Beyond => Err(Refusal::TimeRange),
        Whole::NotFinite => Err(Refusal::NotFinite),
    }
}
