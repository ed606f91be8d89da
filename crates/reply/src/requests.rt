// Requests: kind, key and bands, and what they are answered.
ghost use Rattle.std.specs.Prelude.{◌≡◌, ◌+◌, ◌<◌, length, drop};
ghost use Rattle.request.specs.Reading.{key_span, with_key};
ghost use Rattle.reply.specs.Answers.{reply_at, reply_to, judged_in, Clean};

use energy::RatingTables;
use kinds::{Kind, bands_of};
use quantity::{BandSet, Refusal, byte};
use rating::{Sheet, sheet_of};
use request::{Gathered, bands_at, key_span, kind_at};

// A request: the position after it, its kind, where its key stands and how long it is, and what it is answered.
#[derive(Clone, Copy)]
pub struct Reply {
    pub next: usize,
    pub kind: Kind,
    pub key: usize,
    pub len: usize,
    pub rated: Result<Sheet, Refusal>,
}

// What a request is answered: 1 where the number of bands is not the kind's, then the first refusal of a band, then its sheet.
#[tactic(auto, unfolding(rating::specs::Sheets::rated_of))]
fn judge(kind: Kind, bands: Gathered, tables: RatingTables) -> Result<Sheet, Refusal>
    requires clean { Clean kind bands }
    ensures { result ≡ judged_in kind bands }
{
    if bands.count != bands_of(kind) {
        return Err(Refusal::BandCount);
    }
    if let Some(refusal) = bands.fault {
        return Err(refusal);
    }
    let values = bands.values;
    let set = BandSet {
        values,
        marks: bands.marks,
        len: bands.count,
    };
    sheet_of(kind, set, tables)
}

// The key and the bands of a request that starts `at`.
#[tactic(auto, unfolding(crate::specs::Answers::reply_to, request::specs::Reading::with_key))]
fn keyed(s: &[u8], at: usize, kind: Kind, tables: RatingTables) -> Option<Reply>
    requires at_in_bounds { at + 2 < length s.now }
    ensures { result ≡ reply_to at (with_key kind s.now (at + 3) (key_span (drop (at + 3) s.now))) }
{
    let key = at + 3;
    let len = key_span(s, key);
    if len == 0 || 32 < len {
        return None;
    }
    let bands = bands_at(s, key + len)?;
    if bands.count == 0 || at + 512 < bands.next {
        return None;
    }
    Some(Reply {
        next: bands.next,
        kind,
        key,
        len,
        rated: judge(kind, bands, tables),
    })
}

// The request at a position, with its answer, if one stands there.
#[tactic(auto, unfolding(crate::specs::Answers::reply_at, crate::specs::Answers::reply_to, request::specs::Reading::request_at))]
pub fn reply_at(s: &[u8], at: usize, tables: RatingTables) -> Option<Reply>
    ensures { result ≡ reply_at s.now at }
{
    let kind = kind_at(s, at)?;
    if byte(s, at + 2) != b'\t' {
        return None;
    }
    keyed(s, at, kind, tables)
}
