// The texts of answers: how long they are, and each field written at the front of a lent tail of the output.
ghost use Rattle.std.specs.Prelude.{◌≡◌, ◌++◌, ◌∷◌, [], ◌+◌, ◌≤◌, ◌<◌, length, take, drop};
ghost use Rattle.laws.specs.Parts.{N};
ghost use Rattle.answer.specs.Texts.{decimal, number_text, term_text, kind_text, others, set_text, sheet_fields, fields_of, no_request_text, tab, field_texts, texts_of, tabbed};
ghost use Rattle.laws.specs.Lists.{front};

use kinds::Kind;
use quantity::signed::{above, below};
use quantity::{Decibels, Refusal};
use rating::Sheet;

// How many digits a number has.
fn decimal_len(n: u32) -> usize
    ensures { (result ≡ length (decimal n)) × (result ≤ 10) }
{
    match n {
        0..10 => 1,
        10..100 => 2,
        100..1000 => 3,
        1000..10000 => 4,
        10000..100000 => 5,
        100000..1000000 => 6,
        1000000..10000000 => 7,
        10000000..100000000 => 8,
        100000000..1000000000 => 9,
        _ => 10,
    }
}

// What a number is below 0.
fn magnitude(z: i32) -> u32
    requires { 0 < N z }
    ensures { result ≡ N z }
{
    below(z + 1, 0) + 1
}

// How long the text of a number is.
#[tactic(auto, using(crate::proofs::Writers::number_lengths, laws::proofs::Ints::ints))]
fn number_len(z: i32) -> usize
    ensures { (result ≡ length (number_text z)) × (result ≤ 11) }
{
    if z < 0 {
        return 1 + decimal_len(magnitude(z));
    }
    decimal_len(above(z, 0))
}

// The digits of a number at the front.
#[tactic(auto, using(crate::proofs::Writers::digits))]
fn put_decimal(n: u32, out: &mut [u8]) -> usize
    requires { length (decimal n) ≤ length out.old }
    ensures value { result ≡ length (decimal n) }
    ensures out_after { out.new ≡ front (decimal n) out.old }
{
    if n < 10 {
        out[0] = b'0' + n as u8;
        return 1;
    }
    if n < 100 {
        out[0] = b'0' + (n / 10) as u8;
        out[1] = b'0' + (n % 10) as u8;
        return 2;
    }
    let k = put_decimal(n / 10, out);
    out[k] = b'0' + (n % 10) as u8;
    k + 1
}

// A count behind a tab.
fn put_count(n: u32, out: &mut [u8]) -> usize
    requires { 1 + length (decimal n) ≤ length out.old }
    ensures value { result ≡ 1 + length (decimal n) }
    ensures out_after { out.new ≡ front (tab ∷ decimal n) out.old }
{
    out[0] = b'\t';
    1 + put_decimal(n, &mut out[1..])
}

// A number behind a tab.
#[tactic(auto, using(crate::proofs::Writers::numbers, laws::proofs::Ints::ints))]
fn put_number(z: i32, out: &mut [u8]) -> usize
    requires { 1 + length (number_text z) ≤ length out.old }
    ensures value { result ≡ 1 + length (number_text z) }
    ensures out_after { out.new ≡ front (tab ∷ number_text z) out.old }
{
    if z < 0 {
        out[0] = b'\t';
        out[1] = b'-';
        return 2 + put_decimal(magnitude(z), &mut out[2..]);
    }
    put_count(above(z, 0), out)
}

// The two letters of a kind.
#[derive(Clone, Copy)]
struct Letters(u8, u8);

fn letters_of(kind: Kind) -> Letters
    ensures { kind_text kind ≡ result.0 ∷ result.1 ∷ [] }
{
    match kind {
        Kind::A3 => Letters(b'A', b'3'),
        Kind::A1 => Letters(b'A', b'1'),
        Kind::I3 => Letters(b'I', b'3'),
        Kind::I1 => Letters(b'I', b'1'),
    }
}

// The key, as the line has it.
fn put_key(s: &[u8], key: usize, len: usize, out: &mut [u8])
    requires len_in_bounds { key + len ≤ length s.now }
    requires out_in_bounds { len ≤ length out.old }
    ensures { out.new ≡ front (take len (drop key s.now)) out.old }
{
    // byte by byte: a copy of slices would ask memmove of whoever links the library
    for i in 0..len {
        out[i] = s[key + i];
    }
}

// Kind and key.
pub fn put_head(kind: Kind, s: &[u8], key: usize, len: usize, out: &mut [u8])
    requires len_in_bounds { key + len ≤ length s.now }
    requires out_in_bounds { 3 + len ≤ length out.old }
    ensures { out.new ≡ front (kind_text kind ++ (tab ∷ take len (drop key s.now))) out.old }
{
    let l = letters_of(kind);
    out[0] = l.0;
    out[1] = l.1;
    out[2] = b'\t';
    put_key(s, key, len, &mut out[3..]);
}

// One field of an answer: a number, a count, a single byte, or none.
#[derive(Clone, Copy)]
enum Field {
    Number(i32),
    Count(u32),
    Sign(u8),
    Nothing,
}

// A term; a hyphen where the kind has none.
#[tactic(auto, using(quantity::proofs::Rim::back), unfolding(crate::specs::Texts::term_text, crate::specs::Texts::field_texts))]
fn term_field(term: Option<Decibels>) -> Field
    ensures { field_texts result ≡ term_text term ∷ [] }
{
    match term {
        Some(d) => Field::Number(d.0),
        None => Field::Sign(b'-'),
    }
}

fn mark(limit: bool) -> u8
    ensures { set_text limit ≡ result ∷ [] }
{
    if limit { b'L' } else { b'=' }
}

// What follows the key: the fields of a sheet, or the number of a refusal and nothing more.
#[tactic(auto, using(quantity::proofs::Rim::back), unfolding(crate::specs::Texts::texts_of, crate::specs::Texts::field_texts))]
fn fields_of(rated: Result<Sheet, Refusal>) -> [Field; 6]
    ensures { (texts_of result ≡ fields_of rated) × (length result ≡ 6) }
{
    match rated {
        Ok(sheet) => [
            Field::Sign(b'0'),
            Field::Number(sheet.rating.0),
            Field::Number(sheet.first.0),
            term_field(sheet.second),
            Field::Count(sheet.shifts),
            Field::Sign(mark(sheet.limit)),
        ],
        Err(refusal) => [
            Field::Count(refusal.number()),
            Field::Nothing,
            Field::Nothing,
            Field::Nothing,
            Field::Nothing,
            Field::Nothing,
        ],
    }
}

// A field behind a tab.
#[tactic(auto, using(quantity::proofs::Rim::back, crate::proofs::Fields::tabs))]
fn put_field(field: Field, out: &mut [u8]) -> usize
    requires { length (tabbed (field_texts field)) ≤ length out.old }
    ensures value { result ≡ length (tabbed (field_texts field)) }
    ensures out_after { out.new ≡ front (tabbed (field_texts field)) out.old }
{
    match field {
        Field::Number(z) => put_number(z, out),
        Field::Count(n) => put_count(n, out),
        Field::Sign(b) => {
            out[0] = b'\t';
            out[1] = b;
            2
        }
        Field::Nothing => 0,
    }
}

// What follows the key, field by field, each at the front of the tail that the ones before it left, then the line feed. Always
// six turns: the compiler lays them out one after another.
pub fn put_rated(rated: Result<Sheet, Refusal>, out: &mut [u8])
    requires { length (others (fields_of rated)) ≤ length out.old }
    ensures { out.new ≡ front (others (fields_of rated)) out.old }
{
    let mut at = 0;
    for field in fields_of(rated) {
        at += put_field(field, &mut out[at..]);
    }
    out[at] = b'\n';
}

// How long what follows the key is. Summed from the sheet: a loop over the fields is slower.
#[tactic(auto, using(quantity::proofs::Rim::back), unfolding(crate::specs::Texts::term_text))]
fn term_len(term: Option<Decibels>) -> usize
    ensures { (result ≡ length (term_text term)) × (result ≤ 11) }
{
    match term {
        Some(d) => number_len(d.0),
        None => 1,
    }
}

#[tactic(auto, using(quantity::proofs::Rim::back, crate::proofs::Writers::answer_lengths))]
fn sheet_len(sheet: Sheet) -> usize
    ensures { (result ≡ length (others (sheet_fields sheet))) × (result ≤ 64) }
{
    let terms = number_len(sheet.rating.0) + number_len(sheet.first.0) + term_len(sheet.second);
    9 + terms + decimal_len(sheet.shifts)
}

#[tactic(auto, using(crate::proofs::Writers::answer_lengths))]
pub fn rated_len(rated: Result<Sheet, Refusal>) -> usize
    ensures { (result ≡ length (others (fields_of rated))) × (result ≤ 64) }
{
    match rated {
        Ok(sheet) => sheet_len(sheet),
        Err(refusal) => 2 + decimal_len(refusal.number()),
    }
}

// The answer to what is no request.
#[tactic(auto, using(crate::proofs::Writers::stored7))]
pub fn put_none(out: &mut [u8])
    requires { 7 ≤ length out.old }
    ensures { out.new ≡ front no_request_text out.old }
{
    out[0] = b'?';
    out[1] = b'\t';
    out[2] = b'?';
    out[3] = b'\t';
    out[4] = b'1';
    out[5] = b'1';
    out[6] = b'\n';
}
