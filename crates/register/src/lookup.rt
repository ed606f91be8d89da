// Where a customer and key are: words are compared first, keys only where words are the same.
ghost use Rattle.std.specs.Prelude.{◌≡◌, ◌≤◌};
ghost use Rattle.entry.specs.Entries.{word_of};
ghost use Rattle.register.specs.Looks.{WordsOf, PlaceOf, Short};

use crate::registers::Register;
use entry::{Entry, same_key};

// The place of an entry's customer and key among the first n, if they are there.
pub fn place_of(
    register: &Register,
    words: &[u32; 512],
    n: usize,
    e: Entry,
    w: u32,
) -> Option<usize>
    requires n_bound { (n ≤ 512) × (e.length ≤ 32) × (w ≡ word_of e) }
    requires short { Short register.now n }
    requires words_of { WordsOf register.now n words.now }
    ensures { PlaceOf register.now n e result }
{
    for i in 0..n {
        if words[i] == w && same_key(register.entries[i], e) {
            return Some(i);
        }
    }
    None
}
