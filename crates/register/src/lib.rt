// The register of request keys (document 02, (x)): customers' programs time out and send again, and a retry is billed once.
//
// The register holds numbers only, since it lies in a caller's memory and may be read back from a file: nothing in it is
// trusted before it is tested. A call takes a register and leaves one by value, and looks at it by reference: `desk` takes it
// from where it stands and puts it back.
#![tactic(auto)]

mod lookup;
mod registers;
mod sound;
mod steps;
mod totals;

pub use registers::{Register, open_register};
pub use steps::{Billed, Step, enter};
pub use totals::owed_by;
