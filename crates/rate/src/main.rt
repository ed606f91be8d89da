// `rate`: request lines on standard input, one answer line for each on standard output.
//
// Nothing but moving bytes around the block call: what has been read is answered and written before the next read waits.
#![tactic(auto)]

ghost use Rattle.std.specs.Prelude.{◌≡◌, ◌≤◌, length, take, IfOk, IfSome, OnOk};
ghost use Rattle.std.specs.Io.KnownBytes.{Appends};
ghost use Rattle.line.specs.Answers.{answers_of};
ghost use Rattle.rate.specs.Waits.{Waits, block_at, Called, Refilled, Taken, Advanced, Took, Ran};

use line::answer_block;
use std::io::{Read, Write};

// How many bytes each of the two buffers has.
const ROOM: usize = 65536;

// What goes on from turn to turn: the bytes from `start` to `end` of the buffer wait for their answer, `skipping` is what the
// block call carries on, `last` says that the input has ended.
#[derive(Clone, Copy)]
struct State {
    start: usize,
    end: usize,
    skipping: bool,
    last: bool,
}

// What a block call left, how much it used, and how much it wrote.
#[derive(Clone, Copy)]
struct Turn {
    state: State,
    used: usize,
    wrote: usize,
}

// That a run did not come to its end: a read or a write failed, as standard error says, or all turns are used up.
#[derive(Clone, Copy)]
struct Unfinished;

// Moves the bytes that wait to the front, and reads more behind them.
fn refill<R: Read>(
    rt: &impl Eprint,
    input: &mut R,
    buf: &mut [u8],
    state: State,
) -> Result<State, Unfinished>
    requires { Waits state (length buf.old) }
    ensures waits { IfOk result (λ next. Waits next (length buf.old)) }
    ensures refilled { IfOk result (λ next. Refilled state buf.old next buf.new) }
    ensures taken { IfOk result (λ next. Taken state buf.old next buf.new (R.remaining input.old) (R.remaining input.new)) }
{
    buf.copy_within(state.start..state.end, 0);
    let keep = state.end - state.start;
    let Ok(more) = input.read(&mut buf[keep..]) else {
        let _ = eprintln!(rt; "rate: standard input cannot be read");
        return Err(Unfinished);
    };
    Ok(State {
        start: 0,
        end: keep + more,
        last: more == 0,
        ..state
    })
}

// Answers what waits into `out`.
fn answer(buf: &[u8], out: &mut [u8], state: State) -> Turn
    requires { Waits state (length buf.now) }
    ensures { Called state buf.now (length out.old) result out.new }
{
    let done = answer_block(
        &buf[state.start..state.end],
        out,
        state.skipping,
        state.last,
    );
    Turn {
        state: State {
            start: state.start + done.used,
            skipping: done.skipping,
            ..state
        },
        used: done.used,
        wrote: done.wrote,
    }
}

// Hands the answer of what waits to the output. `buf` and `state` are lent only so that the contract can say whose answer it is.
fn hand_out<W: Write>(
    rt: &impl Eprint,
    output: &mut W,
    buf: &[u8],
    state: State,
    out: &[u8],
    wrote: usize,
) -> Result<(), Unfinished>
    requires wrote_in_bounds { wrote ≤ length out.now }
    requires answered { take wrote out.now ≡ (block_at state buf.now (length out.now)).text }
    ensures { OnOk result (Appends (W.contents output.old) (W.contents output.new) (block_at state buf.now (length out.now)).text) }
{
    if output.write_all(&out[..wrote]).is_err() {
        let _ = eprintln!(rt; "rate: standard output cannot be written");
        return Err(Unfinished);
    }
    Ok(())
}

// Answers what waits, and writes it; where nothing that waits can be answered yet, reads more. What then waits; none where the
// run has ended.
fn advance<R: Read, W: Write>(
    rt: &impl Eprint,
    input: &mut R,
    output: &mut W,
    buf: &mut [u8],
    out: &mut [u8],
    state: State,
) -> Result<Option<State>, Unfinished>
    requires { Waits state (length buf.old) }
    ensures waits { IfOk result (λ next. IfSome next (λ s. Waits s (length buf.old))) }
    ensures advanced { Advanced state buf.old (length out.old) result buf.new }
    ensures took { IfOk result (λ next. Took state buf.old (length out.old) next buf.new (R.remaining input.old) (R.remaining input.new)) }
    ensures handed { OnOk result (Appends (W.contents output.old) (W.contents output.new) (block_at state buf.old (length out.old)).text) }
{
    let turn = answer(buf, out, state);
    hand_out(rt, output, buf, state, out, turn.wrote)?;
    if turn.used != 0 {
        return Ok(Some(turn.state));
    }
    if state.last {
        return Ok(None);
    }
    Ok(Some(refill(rt, input, buf, state)?))
}

// Answers all that is to be read, and writes the answers. A proved loop has to end, and nothing says that an input does. So its
// turns are counted, up to a number that no run uses up.
fn run<R: Read, W: Write>(
    rt: &impl Eprint,
    input: &mut R,
    output: &mut W,
    buf: &mut [u8],
    out: &mut [u8],
) -> Result<(), Unfinished>
    ensures ran { Ran (length out.old) buf.old result buf.new }
    ensures answered { 64 ≤ length out.old → 512 ≤ length buf.old → OnOk result (IfSome (R.remaining input.old) (λ xs. Appends (W.contents output.old) (W.contents output.new) (answers_of xs))) }
{
    let mut state = State {
        start: 0,
        end: 0,
        skipping: false,
        last: false,
    };
    for _turn in 0..u64::MAX {
        let Some(next) = advance(rt, input, output, buf, out, state)? else {
            return Ok(());
        };
        state = next;
    }
    Err(Unfinished)
}

// It sets no status: a read or a write that failed is told on standard error.
fn main(rt: HostRuntime) {
    let mut buf = [0; ROOM];
    let mut out = [0; ROOM];
    let _ = run(&rt, &mut rt.stdin(), &mut rt.stdout(), &mut buf, &mut out);
}
