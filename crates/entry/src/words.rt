// A word of customer and key: entries whose words differ have another customer or key, so that keys are compared only where
// words are the same.
ghost use Rattle.std.specs.Prelude.{◌≡◌, ◌≤◌, length};
ghost use Rattle.entry.specs.Entries.{word_to, word_of};

use crate::entries::Entry;

fn word(customer: u64, key: &[u8]) -> u32
    ensures { result ≡ word_to customer key.now (length key.now) }
{
    let start = (customer % 4294967296) as u32;
    key.iter().fold(
        start,
        |sum, b| sum.wrapping_mul(33).wrapping_add(u32::from(*b)),
    )
}

// The word of an entry.
#[tactic(auto, unfolding(crate::specs::Entries::word_of))]
pub fn word_of(e: Entry) -> u32
    requires { e.length ≤ 32 }
    ensures { result ≡ word_of e }
{
    word(e.customer, &e.key[..e.length as usize])
}
