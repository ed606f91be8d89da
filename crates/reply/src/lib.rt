// Requests and what they are answered.
//
// A request is read where it stands, from a position, in one pass (`request` reads its parts), and judged (`rating` rates its
// bands). Proved: what is answered is what document 01 says of the request that stands there, and of what is none.
#![tactic(auto)]

mod requests;

pub use requests::{Reply, reply_at};
