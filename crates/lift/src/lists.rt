// The lift list of a band set.
ghost use Rattle.std.specs.Prelude.{◌≡◌, true, ◌≤◌, length};
ghost use Rattle.quantity.specs.Quantities.{band_of};
ghost use Rattle.curve.specs.Bands.{accepted};
ghost use Rattle.kinds.specs.Kinds.{airborne, bands_of};
ghost use Rattle.rating.specs.Curve.{rating_of};
ghost use Rattle.laws.specs.Lists.{front};
ghost use Rattle.lift.specs.Reach.{better_by, lift_list};
ghost use Rattle.lift.specs.Calls.{in_targets, places_of, LiftIs};

use kinds::{Kind, numbers_of, sets_of};
use listing::fill;
use quantity::{BandSet, Decibels, Refusal};
use rating::rate_alone;
use sets::{gains_at, position_at};

// Whether a target lies in -100..200.
#[tactic(auto, unfolding(crate::specs::Calls::in_targets))]
fn in_targets(target: Decibels) -> bool
    ensures { result ≡ in_targets target.0 }
{
    -100 <= target.0 && target.0 <= 200
}

// Whether a target is better than a rating.
#[tactic(auto, unfolding(kinds::specs::Numbers::numbers_of))]
fn better(kind: Kind, target: Decibels, rating: Decibels) -> bool
    ensures { result ≡ better_by (airborne kind) target.0 rating.0 }
{
    if numbers_of(kind).airborne {
        rating.0 < target.0
    } else {
        target.0 < rating.0
    }
}

// How many places the list of a kind may take.
fn places(kind: Kind) -> usize
    ensures { result ≡ places_of kind }
{
    sets_of(kind)
}

// Lists an accepted set, at a target that is better than its rating.
#[tactic(auto, using(kinds::proofs::Facts::bands_most), unfolding(kinds::specs::Numbers::numbers_of))]
fn list(kind: Kind, set: BandSet, target: Decibels, out: &mut [u16]) -> usize
    requires set_accepted { accepted set (bands_of kind) ≡ true }
    requires target_in_range { in_targets target.0 ≡ true }
    requires better { better_by (airborne kind) target.0 (rating_of kind (band_of set)) ≡ true }
    requires room { places_of kind ≤ length out.old }
    ensures value { result ≡ length (lift_list kind (band_of set) target.0) }
    ensures out_after { out.new ≡ front (lift_list kind (band_of set) target.0) out.old }
{
    let n = numbers_of(kind);
    // a better target is stricter than position 0, at which nothing is missing
    let p = position_at(target, n.airborne, n.origin);
    let gains = gains_at(set, n.bands, n.airborne, n.entries, p);
    fill(&gains.each[..n.bands], gains.total - n.limit, out)
}

// Lists the least sets of one to three bands that reach the target: their count, with the sets from place 0 of `out` on and
// the places after them as they were; or a refusal, with all of `out` as it was.
#[tactic(auto, unfolding(crate::specs::Calls::answer_of, crate::specs::Calls::count_of, rating::specs::Sheets::rated_of, rating::specs::Sheets::sheet_of))]
pub fn lift(kind: Kind, set: BandSet, target: Decibels, out: &mut [u16]) -> Result<usize, Refusal>
    ensures { LiftIs kind set target.0 out.old result out.new }
{
    let rating = rate_alone(kind, set)?;
    if !in_targets(target) {
        return Err(Refusal::TargetRange);
    }
    if !better(kind, target, rating) {
        return Err(Refusal::TargetNotBetter);
    }
    if out.len() < places(kind) {
        return Err(Refusal::OutputTooSmall);
    }
    Ok(list(kind, set, target, out))
}
