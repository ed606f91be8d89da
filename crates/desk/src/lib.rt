// The open library of the rating desk: every call of document 01, document 02's register of request keys, and the version.
//
// No call has a `requires`: each answers every input, or refuses it with the one number that the documents give. Its promise
// is an equation with a definition of `specs/`, where the definitions stand gathered in the documents' order.
#![tactic(auto)]

mod covers;
mod lifts;
mod lines;
mod measured;
mod ratings;
mod registers;
mod versions;

pub use covers::{cover, grade};
pub use lifts::lift;
pub use lines::{answer_block, answer_line};
pub use measured::{correct_field, correct_laboratory, octaves, specimens, standardized};
pub use ratings::{rate, rate_readings, take_reading};
pub use registers::{bill, close, open_register, owed};
pub use versions::version;
