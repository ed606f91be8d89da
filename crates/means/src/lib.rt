// Means of three: octaves from thirds, and the means of three specimens.
//
// Each call is total, and equals its definition in `specs/` for every input.
#![tactic(auto)]

mod sets;

pub use sets::{octaves, specimens};
