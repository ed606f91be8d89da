// Texts: the byte at a position, and the key of a request, its bytes and its shape.
ghost use Rattle.std.specs.Prelude.{◌≡◌};
ghost use Rattle.quantity.specs.Keys.{byte_at, key_byte, key_shape};

// The byte at a position; 0 past the end.
pub fn byte(s: &[u8], at: usize) -> u8
    ensures { result ≡ byte_at s.now at }
{
    if at < s.len() { s[at] } else { 0 }
}

// Whether a byte may stand in a key: an ASCII letter, a digit or a hyphen.
#[tactic(auto, unfolding(crate::specs::Keys::key_byte))]
pub fn is_key(b: u8) -> bool
    ensures { result ≡ key_byte b }
{
    matches!(b, b'-' | b'0'..=b'9' | b'A'..=b'Z' | b'a'..=b'z')
}

// Whether a text has the shape of a key: 1 to 32 such bytes.
#[tactic(auto, unfolding(crate::specs::Keys::key_shape))]
pub fn is_key_of(key: &[u8]) -> bool
    ensures { result ≡ key_shape key.now }
{
    if key.len() < 1 || 32 < key.len() {
        return false;
    }
    for b in key {
        if !is_key(*b) {
            return false;
        }
    }
    true
}
