// Rooms: the two background corrections, and the standardized difference of a raw band.
//
// Each call is total, and equals its definition in `specs/` for every input.
#![tactic(auto)]

mod background;
mod raw;

pub use background::{correct_field, correct_laboratory};
pub use raw::{RawBand, standardized};
