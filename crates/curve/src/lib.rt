// The curve method over levels: tests over the bands of a set, its levels, the search for the accepted position, and sums of
// energies.
//
// A level counts a band's value so that both signs are one theory; of the kinds nothing is known here. Each walk is proved
// equal to its definition in `specs/`, for every count of bands up to sixteen and every value in range.
#![tactic(auto)]

pub mod levels;
mod positions;

pub use positions::Position;
