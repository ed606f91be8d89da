// Sets of one to three bands, for the lift list: their order, which code never lays out, and what lifting each band takes
// off the deficits at a target.
#![tactic(auto)]

mod gains;

pub use gains::{Gains, gains_at, position_at};
