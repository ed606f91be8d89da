// The parts of a request: its kind, its key and its bands.
//
// Each is read where it stands, from a position, in one pass. Proved: reading is exact both ways (a line is a request exactly
// when it is the text of one, and means that one), and of the bands the code gathers what the definitions say.
#![tactic(auto)]

mod bands;
mod bytes;
mod heads;

pub use bands::{Gathered, bands_at};
pub use heads::{key_span, kind_at};
