// Sets and readings out of lent arrays.
ghost use Rattle.std.specs.Prelude.{◌≡◌};
ghost use Rattle.door.specs.Lists.{tenths_at, set_from, reading_from, reading_at, readings_from};

use quantity::{BandSet, Reading, Tenths};

// Value i of an array of tenths; 0 past its end.
fn tenths_at(values: &[i32], i: usize) -> Tenths
    ensures { result ≡ tenths_at values.now i }
{
    if i < values.len() {
        return Tenths(values[i]);
    }
    Tenths(0)
}

// The set of an array of tenths, as long as the array; what a set has no place for never matters.
pub fn set_from(values: &[i32], marks: u32) -> BandSet
    ensures { result ≡ set_from values.now marks }
{
    let mut tenths = [Tenths(0); 16];
    for i in 0..16 {
        tenths[i] = tenths_at(values, i);
    }
    BandSet {
        values: tenths,
        marks: (marks % 65536) as u16,
        len: values.len(),
    }
}

// A reading by the number of its mark.
pub fn reading_from(mark: u32, value: f32) -> Reading
    ensures { result ≡ reading_from mark value }
{
    match mark {
        0 => Reading::Level(value),
        1 => Reading::Limit(value),
        _ => Reading::Missing,
    }
}

// Reading i of two arrays.
fn reading_at(marks: &[u8], values: &[f32], i: usize) -> Reading
    ensures { result ≡ reading_at marks.now values.now i }
{
    if i < marks.len() && i < values.len() {
        reading_from(u32::from(marks[i]), values[i])
    } else {
        Reading::Missing
    }
}

// The 48 readings that two arrays begin with.
pub fn readings_from(marks: &[u8], values: &[f32]) -> [Reading; 48]
    ensures { result ≡ readings_from marks.now values.now }
{
    let mut readings = [Reading::Missing; 48];
    for i in 0..48 {
        readings[i] = reading_at(marks, values, i);
    }
    readings
}
