// Request lines and blocks of them. Each call is refused with 10 alone, so it does not show which lent array is tested first:
// the small one is, and nothing is written to the output where it is too small.
#![tactic(auto, unfolding(crate::specs::Lines::line_answer, crate::specs::Lines::line_held, crate::specs::Lines::block_answer, crate::specs::Lines::block_held, line::specs::Answers::wrote_of))]

ghost use Rattle.std.specs.Prelude.{◌≡◌, length};
ghost use Rattle.door.specs.Answers.{returned, held};
ghost use Rattle.desk_c.specs.Lines.{line_answer, line_held, block_answer, block_held};

use door::give;

// The answer to one line, from place `at` of `out`, and its length.
#[unsafe(no_mangle)]
pub extern "C" fn imbrolt_answer_line(
    line: &[u8],
    out: &mut [u8],
    at: usize,
    wrote: &mut [u64],
) -> u32
    ensures value { result ≡ returned (line_answer line.now out.old at) (length wrote.old) }
    ensures out_after { out.new ≡ line_held line.now out.old at (length wrote.old) }
    ensures wrote_after { wrote.new ≡ held (line_answer line.now out.old at) wrote.old }
{
    if wrote.len() < 1 {
        return 10;
    }
    match desk::answer_line(line, out, at) {
        Ok(n) => give(wrote, &[n as u64]),
        Err(refusal) => refusal.number(),
    }
}

// The answers to the whole lines of a part of a run for which `out` has room: bytes used, bytes written, and the flag to hand
// to the next call.
#[unsafe(no_mangle)]
pub extern "C" fn imbrolt_answer_block(
    input: &[u8],
    skipping: u32,
    last: u32,
    out: &mut [u8],
    progress: &mut [u64],
) -> u32
    ensures value { result ≡ returned (block_answer input.now (length out.old) skipping last) (length progress.old) }
    ensures out_after { out.new ≡ block_held input.now out.old skipping last (length progress.old) }
    ensures progress_after { progress.new ≡ held (block_answer input.now (length out.old) skipping last) progress.old }
{
    if progress.len() < 3 {
        return 10;
    }
    let done = desk::answer_block(input, out, skipping != 0, last != 0);
    give(
        progress,
        &[
            done.used as u64,
            done.wrote as u64,
            u64::from(done.skipping),
        ],
    )
}
