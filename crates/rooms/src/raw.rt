// A raw band: its standardized level difference.
ghost use Rattle.std.specs.Prelude.{◌≡◌, true, ◌≤◌};
ghost use Rattle.quantity.specs.Quantities.{in_range};
ghost use Rattle.energy.specs.Corrections.{k};
ghost use Rattle.rooms.specs.Background.{field_mark};
ghost use Rattle.rooms.specs.Raw.{raw_of, derived, difference};

use crate::background::in_field;
use energy::reverberation;
use intake::{Taken, take_float, take_time};
use quantity::{Hundredths, Refusal, Tenths};

// What a raw band holds: three levels in decibels and the reverberation time in seconds, as the analyser gives them.
#[derive(Clone, Copy)]
pub struct RawBand {
    pub source: f32,
    pub receiving: f32,
    pub background: f32,
    pub time: f32,
}

// The difference of levels that are in range, with its mark, or 6.
#[tactic(auto, using(crate::proofs::Rules::sum_laws))]
fn differed(
    source: Tenths,
    receiving: Tenths,
    background: Tenths,
    time: Hundredths,
) -> Result<Taken, Refusal>
    requires levels_ranged { (in_range source.0 ≡ true) × (in_range receiving.0 ≡ true) × (in_range background.0 ≡ true) }
    requires time_bound { (10 ≤ time.0) × (time.0 ≤ 2000) }
    ensures { result ≡ derived (difference source.0 receiving.0 background.0 (k time.0)) (field_mark receiving.0 background.0) }
{
    let corrected = in_field(receiving, background);
    // the time's step is counted from -70
    let step = reverberation(time.0) as i32 - 70;
    let value = Tenths(source.0 - corrected.value.0 + step);
    if value.in_range() {
        Ok(Taken {
            value,
            limit: corrected.limit,
        })
    } else {
        Err(Refusal::DerivedRange)
    }
}

// The standardized difference of a raw band: its four floats are tested in order (2, then 4 or 7), then 6.
#[tactic(auto, unfolding(crate::specs::Raw::raw_of))]
pub fn standardized(raw: RawBand) -> Result<Taken, Refusal>
    ensures { result ≡ raw_of raw }
{
    let source = take_float(raw.source, false)?;
    let receiving = take_float(raw.receiving, false)?;
    let background = take_float(raw.background, false)?;
    let time = take_time(raw.time)?;
    differed(source.value, receiving.value, background.value, time)
}
