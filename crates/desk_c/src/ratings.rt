// Readings and ratings.
#![tactic(auto, using(crate::proofs::Fits::rate_fits, crate::proofs::Fits::readings_fit), unfolding(crate::specs::Ratings::reading_answer, crate::specs::Ratings::rate_answer, crate::specs::Ratings::readings_answer))]

ghost use Rattle.std.specs.Prelude.{◌≡◌, length};
ghost use Rattle.door.specs.Answers.{returned, held};
ghost use Rattle.desk_c.specs.Ratings.{reading_answer, rate_answer, readings_answer};

use door::{give_rated, give_taken, reading_from, readings_from, set_from};
use kinds::kind_of;

// One reading: its tenths and its mark.
#[unsafe(no_mangle)]
pub extern "C" fn imbrolt_take_reading(mark: u32, value: f32, out: &mut [i32]) -> u32
    ensures value { result ≡ returned (reading_answer mark value) (length out.old) }
    ensures out_after { out.new ≡ held (reading_answer mark value) out.old }
{
    give_taken(out, desk::take_reading(reading_from(mark, value)))
}

// The sheet of a set of tenths.
#[unsafe(no_mangle)]
pub extern "C" fn imbrolt_rate(kind: u32, values: &[i32], marks: u32, out: &mut [i32]) -> u32
    ensures value { result ≡ returned (rate_answer kind values.now marks) (length out.old) }
    ensures out_after { out.new ≡ held (rate_answer kind values.now marks) out.old }
{
    match kind_of(kind) {
        None => 1,
        Some(kind) => give_rated(out, desk::rate(kind, set_from(values, marks))),
    }
}

// The sheet of a list of readings.
#[unsafe(no_mangle)]
pub extern "C" fn imbrolt_rate_readings(
    kind: u32,
    marks: &[u8],
    values: &[f32],
    out: &mut [i32],
) -> u32
    ensures value { result ≡ returned (readings_answer kind marks.now values.now) (length out.old) }
    ensures out_after { out.new ≡ held (readings_answer kind marks.now values.now) out.old }
{
    match kind_of(kind) {
        None => 1,
        Some(kind) => give_rated(
            out,
            desk::rate_readings(kind, readings_from(marks, values), values.len()),
        ),
    }
}
