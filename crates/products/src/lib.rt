// Products: the improvement of a floor cover, and the grade of a door or window.
//
// Each call is total, and equals its definition in `specs/` for every input.
#![tactic(auto)]

mod covers;
mod grades;

pub use covers::{Cover, cover_of};
pub use grades::{Grade, Side, grade_of};
