// The line call: one line, answered into a lent output from an offset.
ghost use Rattle.std.specs.Prelude.{◌≡◌, ◌≤◌, length, IfSome};
ghost use Rattle.laws.specs.Lists.{front};
ghost use Rattle.reply.specs.Answers.{Keyed, answer_of, reply_text};
ghost use Rattle.line.specs.Answers.{placed, wrote_of};

use answer::{put_head, put_none, put_rated, rated_len};
use energy::{RatingTables, tables};
use quantity::Refusal;
use reply::{Reply, reply_at};

// How long an answer is.
#[tactic(auto, using(reply::proofs::Replies::reply_lengths))]
fn reply_len(s: &[u8], reply: Option<Reply>) -> usize
    requires { IfSome reply (Keyed s.now) }
    ensures { result ≡ length (reply_text s.now reply) }
{
    match reply {
        None => 7,
        Some(reply) => 3 + reply.len + rated_len(reply.rated),
    }
}

// The whole answer, at the front of the tail that is lent.
#[tactic(auto, using(reply::proofs::Replies::reply_lengths), unfolding(reply::specs::Answers::reply_text))]
fn put_reply(s: &[u8], reply: Option<Reply>, out: &mut [u8])
    requires keyed { IfSome reply (Keyed s.now) }
    requires room { length (reply_text s.now reply) ≤ length out.old }
    ensures { out.new ≡ front (reply_text s.now reply) out.old }
{
    match reply {
        None => put_none(out),
        Some(reply) => {
            put_head(reply.kind, s, reply.key, reply.len, out);
            put_rated(reply.rated, &mut out[3 + reply.len..]);
        }
    }
}

// Writes an answer at an offset of the output, if there is room: how many bytes it took.
#[tactic(auto, unfolding(crate::specs::Answers::fits_at, crate::specs::Answers::placed, crate::specs::Answers::wrote_of))]
pub fn answer_at(
    s: &[u8],
    reply: Option<Reply>,
    out: &mut [u8],
    at: usize,
) -> Result<usize, Refusal>
    requires { IfSome reply (Keyed s.now) }
    ensures value { result ≡ wrote_of out.old at (reply_text s.now reply) }
    ensures out_after { out.new ≡ placed out.old at (reply_text s.now reply) }
{
    let n = reply_len(s, reply);
    if out.len() < at || out.len() - at < n {
        return Err(Refusal::OutputTooSmall);
    }
    put_reply(s, reply, &mut out[at..]);
    Ok(n)
}

// The request that a whole line is, if it is one.
fn line_reply(line: &[u8]) -> Option<Reply>
    ensures value { reply_text line.now result ≡ answer_of line.now }
    ensures keyed { IfSome result (Keyed line.now) }
{
    let cells = tables();
    reply_at(line, 0, RatingTables::for_one(&cells)).filter(|reply| reply.next == line.len())
}

// Answers one line, with its line feed, from an offset of the output: the answer, or 11 for what is no request. Bytes before
// the offset and after the answer keep their contents. Refused only with 10, the output then untouched.
pub fn answer_line(line: &[u8], out: &mut [u8], at: usize) -> Result<usize, Refusal>
    ensures value { result ≡ wrote_of out.old at (answer_of line.now) }
    ensures out_after { out.new ≡ placed out.old at (answer_of line.now) }
{
    answer_at(line, line_reply(line), out, at)
}
