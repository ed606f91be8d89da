// The head of a request: its kind and its key.
ghost use Rattle.std.specs.Prelude.{◌≡◌, ◌≤◌, length, drop};
ghost use Rattle.request.specs.Reading.{kind_at, key_span};

use kinds::Kind;
use quantity::{byte, is_key};

// The kind at a position.
#[tactic(auto, unfolding(crate::specs::Reading::kind_at))]
pub fn kind_at(s: &[u8], at: usize) -> Option<Kind>
    ensures { result ≡ kind_at s.now at }
{
    match byte(s, at) {
        b'A' => match byte(s, at + 1) {
            b'3' => Some(Kind::A3),
            b'1' => Some(Kind::A1),
            _ => None,
        },
        b'I' => match byte(s, at + 1) {
            b'3' => Some(Kind::I3),
            b'1' => Some(Kind::I1),
            _ => None,
        },
        _ => None,
    }
}

// How many bytes of a key stand from a position on.
pub fn key_span(s: &[u8], at: usize) -> usize
    requires { at ≤ length s.now }
    ensures { result ≡ key_span (drop at s.now) }
{
    s[at..].iter().take_while(|b| is_key(**b)).count()
}
