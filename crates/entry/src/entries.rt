// Entries: what each says, when two say the same, and the one that a call makes.
ghost use Rattle.std.specs.Prelude.{◌≡◌, ◌≤◌, length, get_or};
ghost use Rattle.laws.specs.Lists.{listed};
ghost use Rattle.kinds.specs.Kinds.{kind_number};
ghost use Rattle.entry.specs.Entries.{no_entry, same_key, same_bands, set_of, kept_value, call_of, entry_of};

use kinds::{Kind, bands_of, kind_number, marks_of};
use quantity::{BandSet, Fen, Tenths};

// What is kept of a sheet that was billed. The first `length` bytes of `key`, and as many values and marks as the kind has
// bands, are the entry's; what lies past them never matters, and is entered as zeros. `kind` is the number of a kind. There is
// no padding between the fields.
#[repr(C)]
#[derive(Clone, Copy)]
pub struct Entry {
    pub customer: u64,
    pub key: [u8; 32],
    pub values: [Tenths; 16],
    pub price: Fen,
    pub marks: u16,
    pub length: u8,
    pub kind: u8,
}

// An entry of zeros.
#[tactic(auto, unfolding(crate::specs::Entries::no_entry))]
pub fn no_entry() -> Entry
    ensures { result ≡ no_entry }
{
    Entry {
        customer: 0,
        key: [0u8; 32],
        values: [Tenths(0); 16],
        price: Fen(0),
        marks: 0,
        length: 0,
        kind: 0,
    }
}

// Whether two entries have one customer and key.
#[tactic(auto, using(crate::proofs::Texts::text_eq), unfolding(crate::specs::Entries::same_key))]
pub fn same_key(e: Entry, f: Entry) -> bool
    requires { (e.length ≤ 32) × (f.length ≤ 32) }
    ensures { result ≡ same_key e f }
{
    e.customer == f.customer && e.key[..e.length as usize] == f.key[..f.length as usize]
}

// Whether two entries, the second of this kind, have one kind and the same bands.
pub fn same_bands(e: Entry, f: Entry, kind: Kind) -> bool
    requires { f.kind ≡ kind_number kind }
    ensures { result ≡ same_bands e f }
{
    let n = bands_of(kind);
    e.kind == f.kind
        && marks_of(kind, e.marks) == marks_of(kind, f.marks)
        && e.values[..n] == f.values[..n]
}

// The bands of an entry, as rating takes them.
pub fn set_of(e: Entry, kind: Kind) -> BandSet
    ensures { result ≡ set_of kind e }
{
    let values = e.values;
    BandSet {
        values,
        marks: e.marks,
        len: bands_of(kind),
    }
}

// A key, with zeros after it.
fn kept_key(key: &[u8]) -> [u8; 32]
    requires { length key.now ≤ 32 }
    ensures { result ≡ listed (λ i. get_or key.now i 0) 32 0 }
{
    let mut bytes = [0u8; 32];
    bytes[..key.len()].copy_from_slice(key);
    bytes
}

// The first n values of a set, with zeros after them.
fn kept_values(set: BandSet, n: usize) -> [Tenths; 16]
    requires { n ≤ 16 }
    ensures { result ≡ listed (kept_value set n) 16 0 }
{
    let mut values = [Tenths(0); 16];
    values[..n].copy_from_slice(&set.values[..n]);
    values
}

// The entry of a call.
#[tactic(auto, unfolding(crate::specs::Entries::entry_of))]
pub fn entry_of(customer: u64, key: &[u8], kind: Kind, set: BandSet, price: Fen) -> Entry
    requires { length key.now ≤ 32 }
    ensures { result ≡ entry_of (call_of customer key.now kind set price.0) }
{
    Entry {
        customer,
        key: kept_key(key),
        values: kept_values(set, bands_of(kind)),
        price,
        marks: marks_of(kind, set.marks),
        length: key.len() as u8,
        kind: kind_number(kind),
    }
}
