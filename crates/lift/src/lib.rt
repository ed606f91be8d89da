// The lift list: which one, two or three bands of a measurement would have to be mended to reach a target, and no more of
// them than needed.
//
// The deficits at the target, and what lifting each band takes off them, are worked out once; crate `listing` puts the sets
// together by these gains. The list is proved to be that of document 01, in which every set is tried through the rating.
#![tactic(auto)]

mod lists;

pub use lists::lift;
