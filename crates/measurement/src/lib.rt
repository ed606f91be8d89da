// Lists of readings: many taken one after another, or the bands of a kind as a set.
//
// The first refusal in the order given is the one that is answered; a list of another length is refused before any of its
// readings is looked at. Each call equals its definition in `specs/` for every list.
#![tactic(auto)]

mod lists;

pub use lists::{Readings, take_all, take_list};
