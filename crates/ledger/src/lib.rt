// Month end (document 02, (xi)), and what a register's bills and closings add up to: `specs/` has the histories, `proofs/` the
// theorems over any sequence of calls. A closing takes a register and leaves one by value, as a call of `register` does.
#![tactic(auto)]

mod closings;

pub use closings::{Closing, close_for};
