// The texts of answers, written straight into a lent output.
//
// Field by field, each at the front of the tail that the ones before it left. Proved: what stands there is the defined text, the
// bytes after it keep their contents, and the lengths are those of the texts.
#![tactic(auto)]

mod texts;

pub use texts::{put_head, put_none, put_rated, rated_len};
