// The register's calls as the C calls of `desk_c` make them: out of numbers and lent arrays, by value. Nothing here is called
// from C.
#![tactic(auto)]

mod registers;

pub use registers::{Changed, bill_given, close_given, owed_given};
