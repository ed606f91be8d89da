// Float intake: readings into tenths of a decibel with limit marks, a reverberation time into hundredths of a second.
//
// An analyser's 32-bit float is taken apart into its bits and rounded exactly, a tie going to the greater. One rounding
// serves both scales. Each call equals its definition in `specs/` for every float: NaN, infinities, subnormals and negative
// zero too.
#![tactic(auto)]

mod rounding;
mod singles;

pub use singles::{Taken, take_float, take_reading, take_time};
