// What the C calls of `desk_c` are made of: sides by their numbers, readings and sets out of lent arrays, and the numbers of
// each answer put into a lent array. Nothing here is called from C.
#![tactic(auto)]

mod given;
mod lists;
mod sides;

pub use given::{
    give, give_cover, give_graded, give_level, give_rated, give_set, give_taken, sheet_numbers,
};
pub use lists::{reading_from, readings_from, set_from};
pub use sides::side_of;
