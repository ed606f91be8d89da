// The four kinds of rating: airborne and impact, from thirds and from octaves. A kind is a type that owns its numbers.
#![tactic(auto)]

mod kinds;
mod levels;

pub use kinds::{
    A1Kind, A3Kind, I1Kind, I3Kind, Kind, Numbers, RatingKind, bands_of, kind_number, kind_of,
    marked, marks_of, numbers_of, sets_of, start_of,
};
pub use levels::{by_curve, by_first, by_second};
