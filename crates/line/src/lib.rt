// Request lines and their answers: one line, or a block of lines.
//
// A line is read and judged where it stands, from a position, in one pass (`reply`); its answer is written straight into the
// caller's output (`answer` writes its fields). Proved: every answer is the defined text, and however an input is cut into
// blocks, the outputs joined are the answers of its lines.
#![tactic(auto)]

mod blocks;
mod lines;

pub use blocks::{Progress, answer_block};
pub use lines::answer_line;
