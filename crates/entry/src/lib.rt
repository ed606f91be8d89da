// What is kept of a sheet that was billed (document 02, (x)): what an entry says, when two say the same, the one that a call
// makes, and whether a call could have made one that was read back. Numbers only, all by value.
#![tactic(auto)]

mod checks;
mod entries;
mod words;

pub use checks::entry_ok;
pub use entries::{Entry, entry_of, no_entry, same_bands, same_key, set_of};
pub use words::word_of;
