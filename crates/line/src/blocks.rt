// The block call: all whole lines of a part of the input, in order.
ghost use Rattle.std.specs.Prelude.{◌≡◌, ◌≤◌, ◌-◌, length};
ghost use Rattle.line.specs.Blocks.{feed_after, piece_at, step_at, Turned, block_of, Answered};

use crate::lines::answer_at;
use energy::{RatingTables, tables_of_many};
use reply::reply_at;

// The next piece of a part: the position after it (its own where there is none), and whether a long line goes on past the part.
#[derive(Clone, Copy)]
pub struct Piece {
    pub next: usize,
    pub skipping: bool,
}

// How much of the part was used, how many bytes were written, and whether a long line that was answered goes on.
#[derive(Clone, Copy)]
pub struct Progress {
    pub used: usize,
    pub wrote: usize,
    pub skipping: bool,
}

// The position after the first line feed from a position on, if there is one.
#[tactic(auto, using(crate::proofs::Turns::feed_by))]
fn feed_after(s: &[u8], at: usize) -> Option<usize>
    ensures { result ≡ feed_after s.now at }
{
    for i in at..s.len() {
        if s[i] == b'\n' {
            return Some(i + 1);
        }
    }
    None
}

// The next piece that asks for an answer. A request that was read there ends at `next`.
#[tactic(auto, unfolding(crate::specs::Blocks::piece_at))]
fn piece_at(s: &[u8], at: usize, last: bool, next: Option<usize>) -> Piece
    requires { at ≤ length s.now }
    ensures { result ≡ piece_at s.now at last next }
{
    if let Some(next) = next.or_else(|| feed_after(s, at)) {
        return Piece {
            next,
            skipping: false,
        };
    }
    let skipping = 512 <= s.len() - at;
    let next = if skipping || last { s.len() } else { at };
    Piece { next, skipping }
}

// One turn: skip to the line feed, or answer the next piece if there is room. Without one, nothing is done.
#[tactic(auto, using(crate::proofs::Turns::none_placed), unfolding(crate::specs::Blocks::step_at, crate::specs::Answers::fits_at, crate::specs::Answers::placed, crate::specs::Answers::wrote_of))]
fn turn_at(s: &[u8], out: &mut [u8], done: Progress, last: bool, tables: RatingTables) -> Progress
    requires used_in_bounds { done.used ≤ length s.now }
    requires wrote_in_bounds { done.wrote ≤ length out.old }
    ensures { Turned (step_at s.now done.used (length out.old - done.wrote) done.skipping last) out.old done.wrote result out.new }
{
    let at = done.used;
    if done.skipping {
        let end = feed_after(s, at);
        return Progress {
            used: end.unwrap_or(s.len()),
            skipping: end.is_none(),
            ..done
        };
    }
    let reply = reply_at(s, at, tables);
    let piece = piece_at(s, at, last, reply.map(|r| r.next));
    if piece.next != at
        && let Ok(n) = answer_at(s, reply, out, done.wrote)
    {
        return Progress {
            used: piece.next,
            wrote: done.wrote + n,
            skipping: piece.skipping,
        };
    }
    done
}

// All turns, with the tables lent, until one does nothing.
fn turns(input: &[u8], out: &mut [u8], skipping: bool, last: bool, tables: RatingTables) -> Progress
    ensures { Answered (block_of input.now (length out.old) skipping last) input.now out.old result out.new }
{
    let mut done = Progress {
        used: 0,
        wrote: 0,
        skipping,
    };
    while done.used < input.len() {
        let next = turn_at(input, out, done, last, tables);
        if next.used == done.used {
            break;
        }
        done = next;
    }
    done
}

// Answers the whole lines of a part of the input for which the output has room, in order. `skipping` is what the call before
// carried on; with `last` the input ends here, so that what is left is a line too. The tables are laid out once for all lines.
pub fn answer_block(input: &[u8], out: &mut [u8], skipping: bool, last: bool) -> Progress
    ensures { Answered (block_of input.now (length out.old) skipping last) input.now out.old result out.new }
{
    let cells = tables_of_many();
    turns(input, out, skipping, last, RatingTables::for_many(&cells))
}
