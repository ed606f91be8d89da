// Whether a register is one that calls could have left: "more than 512 entries, a price out of range, bands that rating
// refuses, a key of another shape, one customer and key twice".
ghost use Rattle.register.specs.Looks.{LookedAt};

use crate::lookup::place_of;
use crate::registers::Register;
use entry::{entry_ok, word_of};

// The words of a register's entries, if it is sound. Looks through it in one pass: each entry is tested, its word is taken, and
// where the remainder of the word was met before, its customer and key are sought among the entries before it.
pub fn look(register: &Register) -> Option<[u32; 512]>
    ensures { LookedAt register.now result }
{
    let count = register.count;
    if 512 < count {
        return None;
    }
    let mut words = [0u32; 512];
    let mut met = [0u8; 16384];
    for i in 0..count {
        let e = register.entries[i];
        if !entry_ok(e) {
            return None;
        }
        let w = word_of(e);
        let slot = (w % 16384) as usize;
        if met[slot] == 1 && place_of(register, &words, i, e, w).is_some() {
            return None;
        }
        met[slot] = 1;
        words[i] = w;
    }
    Some(words)
}
