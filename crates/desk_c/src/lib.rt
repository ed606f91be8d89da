// The calls of `desk` for C, Rust and others, on numbers, slices of numbers and a register (include/imbrolt.h).
//
// Each function returns 0 or the refusal's number. Its answer goes to a lent array, from the array's start; places past the
// answer keep their contents, and on a refusal the whole array and the register do. A lent array that is too small is refusal
// 10, tested last. The promise of each says what it returns and what every lent array and register holds afterwards, for all
// inputs.
#![tactic(auto)]

mod lifts;
mod lines;
mod measured;
mod ratings;
mod registers;
mod versions;

pub use lifts::imbrolt_lift;
pub use lines::{imbrolt_answer_block, imbrolt_answer_line};
pub use measured::{
    imbrolt_correct_field, imbrolt_correct_laboratory, imbrolt_cover, imbrolt_grade,
    imbrolt_octaves, imbrolt_specimens, imbrolt_standardized,
};
pub use ratings::{imbrolt_rate, imbrolt_rate_readings, imbrolt_take_reading};
pub use registers::{imbrolt_bill, imbrolt_close, imbrolt_open_register, imbrolt_owed};
pub use versions::imbrolt_version;
