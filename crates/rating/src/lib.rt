// The rating of four kinds: airborne and impact, from thirds and from octaves.
//
// A kind is a type that owns its numbers; one search serves all four. The search counts its own shifts, and the sheet is
// proved equal to the definitions in `specs/`, for every kind, every length and every value.
#![tactic(auto)]

mod sheets;

pub use sheets::{Sheet, rate, rate_alone, sheet_of};
