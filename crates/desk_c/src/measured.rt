// Rooms, specimens, covers, doors and windows.
#![tactic(auto, unfolding(crate::specs::Rooms::field_answer, crate::specs::Rooms::laboratory_answer, crate::specs::Rooms::raw_answer, crate::specs::Rooms::octaves_answer, crate::specs::Rooms::specimens_answer, crate::specs::Rooms::cover_answer))]

ghost use Rattle.std.specs.Prelude.{◌≡◌, length};
ghost use Rattle.door.specs.Answers.{returned, held};
ghost use Rattle.desk_c.specs.Rooms.{field_answer, laboratory_answer, raw_answer, octaves_answer, specimens_answer, cover_answer, grade_answer};

use door::{
    give_cover, give_graded, give_level, give_set, give_taken, readings_from, set_from, side_of,
};
use kinds::{A1Kind, A3Kind, RatingKind};
use quantity::Tenths;
use rooms::RawBand;

// A level corrected by the field rule, and its mark.
#[unsafe(no_mangle)]
pub extern "C" fn imbrolt_correct_field(total: i32, background: i32, out: &mut [i32]) -> u32
    ensures value { result ≡ returned (field_answer total background) (length out.old) }
    ensures out_after { out.new ≡ held (field_answer total background) out.old }
{
    give_taken(out, desk::correct_field(Tenths(total), Tenths(background)))
}

// A level corrected by the laboratory rule.
#[unsafe(no_mangle)]
pub extern "C" fn imbrolt_correct_laboratory(total: i32, background: i32, out: &mut [i32]) -> u32
    ensures value { result ≡ returned (laboratory_answer total background) (length out.old) }
    ensures out_after { out.new ≡ held (laboratory_answer total background) out.old }
{
    give_level(
        out,
        desk::correct_laboratory(Tenths(total), Tenths(background)),
    )
}

// The standardized level difference of a raw band, and its mark.
#[unsafe(no_mangle)]
pub extern "C" fn imbrolt_standardized(
    source: f32,
    receiving: f32,
    background: f32,
    time: f32,
    out: &mut [i32],
) -> u32
    ensures value { result ≡ returned (raw_answer (record { source = source; receiving = receiving; background = background; time = time })) (length out.old) }
    ensures out_after { out.new ≡ held (raw_answer (record { source = source; receiving = receiving; background = background; time = time })) out.old }
{
    give_taken(
        out,
        desk::standardized(RawBand {
            source,
            receiving,
            background,
            time,
        }),
    )
}

// Five octave means of sixteen thirds, and their marks.
#[unsafe(no_mangle)]
pub extern "C" fn imbrolt_octaves(values: &[i32], marks: u32, out: &mut [i32]) -> u32
    ensures value { result ≡ returned (octaves_answer values.now marks) (length out.old) }
    ensures out_after { out.new ≡ held (octaves_answer values.now marks) out.old }
{
    give_set(out, desk::octaves(set_from(values, marks)), A1Kind::BANDS)
}

// Sixteen band means of three specimens, and their marks.
#[unsafe(no_mangle)]
pub extern "C" fn imbrolt_specimens(marks: &[u8], values: &[f32], out: &mut [i32]) -> u32
    ensures value { result ≡ returned (specimens_answer marks.now values.now) (length out.old) }
    ensures out_after { out.new ≡ held (specimens_answer marks.now values.now) out.old }
{
    give_set(
        out,
        desk::specimens(readings_from(marks, values), values.len()),
        A3Kind::BANDS,
    )
}

// The weighted improvement of a floor cover.
#[unsafe(no_mangle)]
pub extern "C" fn imbrolt_cover(values: &[i32], marks: u32, out: &mut [i32]) -> u32
    ensures value { result ≡ returned (cover_answer values.now marks) (length out.old) }
    ensures out_after { out.new ≡ held (cover_answer values.now marks) out.old }
{
    give_cover(out, desk::cover(set_from(values, marks)))
}

// The grade of a door or window from three specimens.
#[tactic(auto, using(crate::proofs::Fits::grades_fit), unfolding(crate::specs::Rooms::grade_answer))]
#[unsafe(no_mangle)]
pub extern "C" fn imbrolt_grade(side: u32, marks: &[u8], values: &[f32], out: &mut [i32]) -> u32
    ensures value { result ≡ returned (grade_answer side marks.now values.now) (length out.old) }
    ensures out_after { out.new ≡ held (grade_answer side marks.now values.now) out.old }
{
    give_graded(
        out,
        desk::grade(readings_from(marks, values), values.len(), side_of(side)),
    )
}
