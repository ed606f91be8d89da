// The weighted improvement of a floor cover.
ghost use Rattle.std.specs.Prelude.{◌≡◌, true, ◌<◌, ◌-ℤ◌};
ghost use Rattle.quantity.specs.Quantities.{in_range};
ghost use Rattle.curve.specs.Bands.{accepted};
ghost use Rattle.kinds.specs.Kinds.{bands_of};
ghost use Rattle.rating.specs.Bounds.{SmallSheet};
ghost use Rattle.products.specs.Covers.{floor_at, derived_set, improvement_of, cover_of};

use curve::levels::all_in_range;
use kinds::{I3Kind, Kind, RatingKind};
use quantity::{BandSet, Decibels, Refusal, Tenths};
use rating::{Sheet, rate};

// A cover's improvement rating, its term and its mark (at least).
#[derive(Clone, Copy)]
pub struct Cover {
    pub improvement: Decibels,
    pub term: Decibels,
    pub limit: bool,
}

// The reference floor, in tenths.
const FLOOR: [i32; 16] = [
    670, 675, 680, 685, 690, 695, 700, 705, 710, 715, 720, 720, 720, 720, 720, 720,
];

// The level of band i of the reference floor under the cover.
fn derived(i: usize, improvement: Tenths) -> Tenths
    requires i_bound { i < 16 }
    requires ranged { in_range improvement.0 ≡ true }
    ensures { result.0 ≡ floor_at i -ℤ improvement.0 }
{
    Tenths(FLOOR[i] - improvement.0)
}

// The reference floor under the cover.
#[tactic(auto, using(crate::proofs::Improvements::level_laws))]
fn derived_set(set: BandSet) -> BandSet
    requires { accepted set (bands_of Kind.I3) ≡ true }
    ensures { result ≡ derived_set set }
{
    let mut values = [Tenths(0); 16];
    for i in 0..I3Kind::BANDS {
        values[i] = derived(i, set.values[i]);
    }
    BandSet {
        values,
        marks: set.marks,
        len: I3Kind::BANDS,
    }
}

// The improvement, from the sheet of the floor under the cover.
#[tactic(auto, using(crate::proofs::Signed::rating_is, crate::proofs::Signed::term_is))]
fn improvement(sheet: Sheet) -> Cover
    requires { SmallSheet sheet }
    ensures { result ≡ improvement_of sheet sheet.limit }
{
    Cover {
        improvement: Decibels(78 - sheet.rating.0),
        term: Decibels(-(sheet.first.0 + 10)),
        limit: sheet.limit,
    }
}

// The improvement of a cover: 1 where it has no sixteen bands, 4 where one is out of range, then 6 where a derived level is.
#[tactic(auto, using(crate::proofs::Improvements::limit_is), unfolding(crate::specs::Covers::cover_of))]
pub fn cover_of(set: BandSet) -> Result<Cover, Refusal>
    ensures { result ≡ cover_of set }
{
    if set.len != I3Kind::BANDS {
        return Err(Refusal::BandCount);
    }
    if !all_in_range(set, I3Kind::BANDS) {
        return Err(Refusal::BandRange);
    }
    let Ok(sheet) = rate(Kind::I3, derived_set(set)) else {
        return Err(Refusal::DerivedRange);
    };
    Ok(improvement(sheet))
}
