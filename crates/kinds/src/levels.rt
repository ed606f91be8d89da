// The levels of a kind's bands, by its reference curve and by its spectra. The values lent are a set's; the first are the bands'.
//
// Each arm counts from an array that its kind names: so the array stands in the code, where one chosen before would be laid out
// and copied. It cuts the values to the count that its kind names: so the length of the walk stands there, too.
#![tactic(auto, using(crate::proofs::Facts::fits))]

ghost use Rattle.std.specs.Prelude.{◌≤◌, length};
ghost use Rattle.curve.specs.Levels.{plain_at, Ranged, Levels};
ghost use Rattle.kinds.specs.Kinds.{airborne, bands_of};
ghost use Rattle.kinds.specs.Numbers.{entries_of, first_of, second_of};

use crate::kinds::{A1Kind, A3Kind, I1Kind, I3Kind, Kind, RatingKind};
use curve::levels::levels;
use quantity::Tenths;

// By the reference curve.
fn curve_levels<K: RatingKind>(values: &[Tenths]) -> [u32; 16]
    requires bands_bound { bands_of K.kind ≤ length values.now }
    requires ranged { Ranged values.now (bands_of K.kind) }
    ensures { Levels (airborne K.kind) (plain_at values.now) (entries_of K.kind) (bands_of K.kind) result }
{
    levels(&values[..K::BANDS], K::AIRBORNE, K::reference())
}

pub fn by_curve(kind: Kind, values: &[Tenths]) -> [u32; 16]
    requires bands_bound { bands_of kind ≤ length values.now }
    requires ranged { Ranged values.now (bands_of kind) }
    ensures { Levels (airborne kind) (plain_at values.now) (entries_of kind) (bands_of kind) result }
{
    match kind {
        Kind::A3 => curve_levels::<A3Kind>(values),
        Kind::A1 => curve_levels::<A1Kind>(values),
        Kind::I3 => curve_levels::<I3Kind>(values),
        Kind::I1 => curve_levels::<I1Kind>(values),
    }
}

// By the spectrum of the first term.
fn first_levels<K: RatingKind>(values: &[Tenths]) -> [u32; 16]
    requires bands_bound { bands_of K.kind ≤ length values.now }
    requires ranged { Ranged values.now (bands_of K.kind) }
    ensures { Levels (airborne K.kind) (plain_at values.now) (first_of K.kind) (bands_of K.kind) result }
{
    levels(&values[..K::BANDS], K::AIRBORNE, K::first())
}

pub fn by_first(kind: Kind, values: &[Tenths]) -> [u32; 16]
    requires bands_bound { bands_of kind ≤ length values.now }
    requires ranged { Ranged values.now (bands_of kind) }
    ensures { Levels (airborne kind) (plain_at values.now) (first_of kind) (bands_of kind) result }
{
    match kind {
        Kind::A3 => first_levels::<A3Kind>(values),
        Kind::A1 => first_levels::<A1Kind>(values),
        Kind::I3 => first_levels::<I3Kind>(values),
        Kind::I1 => first_levels::<I1Kind>(values),
    }
}

// By the spectrum of the second term, which an airborne kind has.
fn second_levels<K: RatingKind>(values: &[Tenths]) -> [u32; 16]
    requires bands_bound { bands_of K.kind ≤ length values.now }
    requires ranged { Ranged values.now (bands_of K.kind) }
    ensures { Levels (airborne K.kind) (plain_at values.now) (second_of K.kind) (bands_of K.kind) result }
{
    levels(&values[..K::BANDS], K::AIRBORNE, K::second())
}

pub fn by_second(kind: Kind, values: &[Tenths]) -> [u32; 16]
    requires bands_bound { bands_of kind ≤ length values.now }
    requires ranged { Ranged values.now (bands_of kind) }
    ensures { Levels (airborne kind) (plain_at values.now) (second_of kind) (bands_of kind) result }
{
    match kind {
        Kind::A3 => second_levels::<A3Kind>(values),
        Kind::A1 => second_levels::<A1Kind>(values),
        Kind::I3 => second_levels::<I3Kind>(values),
        Kind::I1 => second_levels::<I1Kind>(values),
    }
}
