// The sets of the lift list, written in their order: the least sets of one to three bands whose gains make up what is needed.
//
// A set is put together band by band, with the sum and the least of its gains; none is laid out that is not listed. What is
// written is proved to be the list by gains of crate `sets`.
#![tactic(auto)]

mod parts;

pub use parts::fill;
