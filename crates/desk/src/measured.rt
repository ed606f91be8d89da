// Corrections, raw bands and means of three.
ghost use Rattle.std.specs.Prelude.{◌≡◌};
ghost use Rattle.desk.specs.Kinds.{bands_of};
ghost use Rattle.desk.specs.Answers.{taken_answer, intake_answer};
ghost use Rattle.desk.specs.Background.{field_of, laboratory_of, raw_of, octaves_of, specimens_of};

use intake::Taken;
use kinds::Kind;
use quantity::{BandSet, Reading, Refusal, Tenths};
use rooms::RawBand;

// A level corrected by the field rule, with its mark: 4 for the total, then 4 for the background.
pub fn correct_field(total: Tenths, background: Tenths) -> Result<Taken, Refusal>
    ensures { taken_answer result ≡ taken_answer (field_of total.0 background.0) }
{
    rooms::correct_field(total, background)
}

// A level corrected by the laboratory rule: 4 for the total, then 4 for the background, then 5.
pub fn correct_laboratory(total: Tenths, background: Tenths) -> Result<Taken, Refusal>
    ensures { taken_answer result ≡ taken_answer (laboratory_of total.0 background.0) }
{
    rooms::correct_laboratory(total, background)
}

// The standardized level difference of a raw band: its four floats in order, each 2, then 4 (the time 7), then 6.
pub fn standardized(raw: RawBand) -> Result<Taken, Refusal>
    ensures { taken_answer result ≡ taken_answer (raw_of raw) }
{
    rooms::standardized(raw)
}

// Five octave means of sixteen thirds: 1, then 4.
pub fn octaves(set: BandSet) -> Result<BandSet, Refusal>
    ensures answer { intake_answer result (bands_of Kind.A1) ≡ intake_answer (octaves_of set) (bands_of Kind.A1) }
    ensures value { result ≡ octaves_of set }
{
    means::octaves(set)
}

// Sixteen band means of three specimens: 12, then the readings in order, each 3, 2, 4.
pub fn specimens(readings: [Reading; 48], len: usize) -> Result<BandSet, Refusal>
    ensures answer { intake_answer result (bands_of Kind.A3) ≡ intake_answer (specimens_of readings len) (bands_of Kind.A3) }
    ensures value { result ≡ specimens_of readings len }
{
    means::specimens(readings, len)
}
