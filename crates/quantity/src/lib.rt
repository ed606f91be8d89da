// The quantities of a rating sheet, the refusals, and the bytes and the key of a request.
//
// A measured value is a whole number of tenths of a decibel, a single number (a rating, a target, a rounded term) a whole
// number of decibels: two types, so that neither is passed for the other. Each conversion is a function with a name.
#![tactic(auto)]

mod keys;
mod quantities;
mod refusals;
pub mod signed;

pub use keys::{byte, is_key, is_key_of};
pub use quantities::{BandSet, Decibels, Fen, Hundredths, Reading, Tenths};
pub use refusals::Refusal;
