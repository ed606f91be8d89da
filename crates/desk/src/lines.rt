// Request lines and blocks of them.
ghost use Rattle.std.specs.Prelude.{◌≡◌, length};
ghost use Rattle.desk.specs.Answers.{wrote_answer};
ghost use Rattle.desk.specs.Lines.{answer_of, placed, wrote_of, block_of, Answered};

use line::Progress;
use quantity::Refusal;

// The answer to one line, with its line feed, from an offset of the output: refused only with 10, the output then untouched.
// Bytes before the offset and after the answer keep their contents.
pub fn answer_line(line: &[u8], out: &mut [u8], at: usize) -> Result<usize, Refusal>
    ensures value { wrote_answer result ≡ wrote_answer (wrote_of out.old at (answer_of line.now)) }
    ensures out_after { out.new ≡ placed out.old at (answer_of line.now) }
{
    line::answer_line(line, out, at)
}

// The answers to the whole lines of a part of a run for which the output has room. `skipping` is what the call before carried
// on; with `last` the input ends here.
pub fn answer_block(input: &[u8], out: &mut [u8], skipping: bool, last: bool) -> Progress
    ensures { Answered (block_of input.now (length out.old) skipping last) input.now out.old result out.new }
{
    line::answer_block(input, out, skipping, last)
}
