// The sheet of a band set: one path for all kinds, by the numbers of the kind.
ghost use Rattle.std.specs.Prelude.{◌≡◌, true, ℕ, ◌≤◌, ◌<◌, length};
ghost use Rattle.energy.specs.Energies.{u, Summed};
ghost use Rattle.quantity.specs.Quantities.{half_even, band_of};
ghost use Rattle.curve.specs.Bands.{accepted};
ghost use Rattle.curve.specs.Levels.{Count, at};
ghost use Rattle.kinds.specs.Kinds.{bands_of};
ghost use Rattle.rating.specs.Found.{SoughtBy, WeighedOf, rating_by, term_by};
ghost use Rattle.rating.specs.Curve.{rating_of};
ghost use Rattle.rating.specs.Sheets.{sheet_of, rated_of, accept_of, single_of};

use curve::Position;
use curve::levels::{Accepted, all_in_range, energies, least, settle, sum};
use energy::{RatingTables, tables};
use kinds::{Kind, Numbers, bands_of, by_curve, by_first, by_second, marked, numbers_of, start_of};
use quantity::signed::less;
use quantity::{BandSet, Decibels, Refusal, Tenths};

// The rating, its terms (C and Ctr, or the impact term and none), the count of curve shifts, and whether the set is marked as
// a limit set: the rating is then at least this for airborne, at most this for impact.
#[derive(Clone, Copy)]
pub struct Sheet {
    pub rating: Decibels,
    pub first: Decibels,
    pub second: Option<Decibels>,
    pub shifts: u32,
    pub limit: bool,
}

// The least level, and the sum of the energies above it.
#[derive(Clone, Copy)]
struct Weighed {
    least: u32,
    sum: u64,
}

// The accepted position by the levels of a kind's bands, with the shifts from its start.
fn sought(kind: Kind, levels: &[u32], limit: u32) -> Accepted
    requires bands_of_kind { length levels.now ≡ bands_of kind }
    requires each_small { (i : ℕ) → i < length levels.now → at levels.now i ≤ 4500 }
    ensures { SoughtBy kind (at levels.now) (length levels.now) limit result.at.0 result.shifts }
{
    let start = start_of(kind, sum(levels));
    settle(levels, limit, start)
}

// The least of the levels by one spectrum, and the sum of their energies.
fn weigh(levels: &[u32], tables: RatingTables) -> Weighed
    requires count { Count (length levels.now) }
    ensures { WeighedOf (at levels.now) (length levels.now) result.least result.sum }
{
    let least = least(levels);
    let sum = energies(levels, least, tables);
    Weighed { least, sum }
}

// The rating at position p.
fn rating_at(n: &Numbers, p: Position) -> Decibels
    requires { (p.0 < 500) × (n.now.origin.0 < 200) }
    ensures { result.0 ≡ rating_by n.now.airborne n.now.origin.0 p.0 }
{
    if n.airborne {
        Decibels(less(p.0, n.origin.0))
    } else {
        Decibels(less(n.origin.0, p.0))
    }
}

// A term at position p, in tenths, by the least level and the step of the energies above it.
fn term_at(n: &Numbers, p: Position, least: u32, step: u32) -> Tenths
    requires { (p.0 < 500) × (n.now.origin.0 < 200) × (least < 5000) × (step < 500) }
    ensures { result.0 ≡ term_by n.now.airborne n.now.origin.0 least step p.0 }
{
    let height = p.tenths();
    let nought = n.origin.tenths();
    if n.airborne {
        Tenths(less(least + nought, 200 + step + height))
    } else {
        Tenths(less(1350 + step + height, least + nought))
    }
}

// A term at position p, by what was weighed, rounded to a whole decibel.
fn term_of(n: &Numbers, p: Position, w: Weighed, tables: RatingTables) -> Decibels
    requires summed { Summed w.sum }
    requires bounds { (p.0 < 500) × (n.now.origin.0 < 200) × (w.least < 5000) }
    ensures { result.0 ≡ half_even (term_by n.now.airborne n.now.origin.0 w.least (u w.sum) p.0) }
{
    term_at(n, p, w.least, tables.level(w.sum)).rounded()
}

// The sheet of an accepted set, with the tables lent: whoever rates many sets lays them out once. It is handed on as the answer
// that it is: a sheet by itself would be copied into one.
#[tactic(auto, using(crate::proofs::Sheeted::lending, std::proofs::lemmas::Grind::common_steps))]
pub fn sheet_of(kind: Kind, set: BandSet, tables: RatingTables) -> Result<Sheet, Refusal>
    requires set_accepted { accepted set (bands_of kind) ≡ true }
    ensures { result ≡ Ok (sheet_of kind set) }
{
    let n = numbers_of(kind);
    let by_curve = by_curve(kind, &set.values);
    let by_first = by_first(kind, &set.values);
    let accepted = sought(kind, &by_curve[..n.bands], n.limit);
    let p = accepted.at;
    let one = weigh(&by_first[..n.bands], tables);
    // both are weighed before either step is looked up, so that neither waits for the other
    let second = if n.airborne {
        let by_second = by_second(kind, &set.values);
        let other = weigh(&by_second[..n.bands], tables);
        Some(term_of(&n, p, other, tables))
    } else {
        None
    };
    Ok(Sheet {
        rating: rating_at(&n, p),
        first: term_of(&n, p, one, tables),
        second,
        shifts: accepted.shifts,
        limit: marked(kind, set.marks),
    })
}

// Whether a set can be rated: 1 where its length is not the kind's, then 4 where a band is out of range.
#[tactic(auto, unfolding(crate::specs::Sheets::accept_of))]
fn accept(kind: Kind, set: BandSet) -> Result<(), Refusal>
    ensures { result ≡ accept_of kind set }
{
    let bands = bands_of(kind);
    if set.len != bands {
        return Err(Refusal::BandCount);
    }
    if !all_in_range(set, bands) {
        return Err(Refusal::BandRange);
    }
    Ok(())
}

// The rating of an accepted set, without its terms.
#[tactic(auto, using(crate::proofs::Sheeted::lending, std::proofs::lemmas::Grind::common_steps))]
fn rating_of(kind: Kind, set: BandSet) -> Decibels
    requires { accepted set (bands_of kind) ≡ true }
    ensures { result.0 ≡ rating_of kind (band_of set) }
{
    let n = numbers_of(kind);
    let by_curve = by_curve(kind, &set.values);
    let accepted = sought(kind, &by_curve[..n.bands], n.limit);
    rating_at(&n, accepted.at)
}

// The rating alone, as `rate` gives it: no table of energies is laid out for it.
#[tactic(auto, unfolding(crate::specs::Sheets::accept_of, crate::specs::Sheets::rated_of, crate::specs::Sheets::sheet_of))]
pub fn rate_alone(kind: Kind, set: BandSet) -> Result<Decibels, Refusal>
    ensures { result ≡ single_of (rated_of kind set) }
{
    accept(kind, set)?;
    Ok(rating_of(kind, set))
}

// Rates a band set: its sheet, or the refusal.
#[tactic(auto, unfolding(crate::specs::Sheets::accept_of, crate::specs::Sheets::rated_of))]
pub fn rate(kind: Kind, set: BandSet) -> Result<Sheet, Refusal>
    ensures { result ≡ rated_of kind set }
{
    accept(kind, set)?;
    let cells = tables();
    sheet_of(kind, set, RatingTables::for_one(&cells))
}
