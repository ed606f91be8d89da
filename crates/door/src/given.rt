// Putting an answer's numbers into a lent array.
ghost use Rattle.std.specs.Prelude.{◌≡◌, ◌+◌, ◌≤◌, length, take};
ghost use Rattle.quantity.specs.Answers.{Answer};
ghost use Rattle.door.specs.Answers.{returned, held};
ghost use Rattle.intake.specs.Taken.{taken_answer};
ghost use Rattle.rating.specs.Sheets.{sheet_numbers, rated_answer};
ghost use Rattle.measurement.specs.Lists.{set_numbers, intake_answer};
ghost use Rattle.products.specs.Covers.{improvement_answer};
ghost use Rattle.products.specs.Grades.{graded_answer};
ghost use Rattle.door.specs.Given.{level_answer, Fitting, GradeFits};

use intake::Taken;
use products::{Cover, Grade};
use quantity::{BandSet, Refusal};
use rating::Sheet;

// An answer's numbers, from the start of the lent array; 10 where they do not fit.
pub fn give<T: Copy>(out: &mut [T], answer: &[T]) -> u32
    ensures value { result ≡ returned (Answer.numbers answer.now) (length out.old) }
    ensures out_after { out.new ≡ held (Answer.numbers answer.now) out.old }
{
    if out.len() < answer.len() {
        return Refusal::OutputTooSmall.number();
    }
    // one by one: so a short answer goes to the lent array as it is, where a copy of slices would store it and load it first
    for i in 0..answer.len() {
        out[i] = answer[i];
    }
    0
}

// A value and its mark, or the refusal's number.
pub fn give_taken(out: &mut [i32], taken: Result<Taken, Refusal>) -> u32
    ensures value { result ≡ returned (taken_answer taken) (length out.old) }
    ensures out_after { out.new ≡ held (taken_answer taken) out.old }
{
    match taken {
        Ok(taken) => give(out, &[taken.value.0, i32::from(taken.limit)]),
        Err(refusal) => refusal.number(),
    }
}

// The six numbers of a sheet, with zeros after them.
pub fn sheet_numbers(sheet: Sheet) -> [i32; 17]
    requires { sheet.shifts ≤ 500 }
    ensures numbers { take 6 result ≡ sheet_numbers sheet }
    ensures result_len { length result ≡ 17 }
{
    [
        sheet.rating.0,
        sheet.first.0,
        sheet.second.map_or(0, |d| d.0),
        i32::from(sheet.second.is_some()),
        sheet.shifts as i32,
        i32::from(sheet.limit),
        0,
        0,
        0,
        0,
        0,
        0,
        0,
        0,
        0,
        0,
        0,
    ]
}

// The numbers of a sheet, or the refusal's number.
pub fn give_rated(out: &mut [i32], rated: Result<Sheet, Refusal>) -> u32
    requires { Fitting rated }
    ensures value { result ≡ returned (rated_answer rated) (length out.old) }
    ensures out_after { out.new ≡ held (rated_answer rated) out.old }
{
    match rated {
        Ok(sheet) => give(out, &sheet_numbers(sheet)[..6]),
        Err(refusal) => refusal.number(),
    }
}

// A level alone, or the refusal's number.
pub fn give_level(out: &mut [i32], taken: Result<Taken, Refusal>) -> u32
    ensures value { result ≡ returned (level_answer taken) (length out.old) }
    ensures out_after { out.new ≡ held (level_answer taken) out.old }
{
    match taken {
        Ok(taken) => give(out, &[taken.value.0]),
        Err(refusal) => refusal.number(),
    }
}

// The first n values of a set, then its marks, with zeros after them.
fn set_numbers(set: BandSet, n: usize) -> [i32; 17]
    requires { n ≤ 16 }
    ensures numbers { take (n + 1) result ≡ set_numbers set n }
    ensures result_len { length result ≡ 17 }
{
    let mut answer = [0i32; 17];
    for i in 0..n {
        answer[i] = set.values[i].0;
    }
    answer[n] = i32::from(set.marks);
    answer
}

// The first n values of a set that was taken in, then its marks, or the refusal's number.
pub fn give_set(out: &mut [i32], intake: Result<BandSet, Refusal>, n: usize) -> u32
    requires { n ≤ 16 }
    ensures value { result ≡ returned (intake_answer intake n) (length out.old) }
    ensures out_after { out.new ≡ held (intake_answer intake n) out.old }
{
    match intake {
        Ok(set) => give(out, &set_numbers(set, n)[..n + 1]),
        Err(refusal) => refusal.number(),
    }
}

// A cover's improvement, its term and its mark, or the refusal's number.
pub fn give_cover(out: &mut [i32], cover: Result<Cover, Refusal>) -> u32
    ensures value { result ≡ returned (improvement_answer cover) (length out.old) }
    ensures out_after { out.new ≡ held (improvement_answer cover) out.old }
{
    match cover {
        Ok(cover) => give(
            out,
            &[cover.improvement.0, cover.term.0, i32::from(cover.limit)],
        ),
        Err(refusal) => refusal.number(),
    }
}

// The numbers of a grade, or the refusal's number.
pub fn give_graded(out: &mut [i32], graded: Result<Grade, Refusal>) -> u32
    requires { GradeFits graded }
    ensures value { result ≡ returned (graded_answer graded) (length out.old) }
    ensures out_after { out.new ≡ held (graded_answer graded) out.old }
{
    match graded {
        Ok(grade) => give(
            out,
            &[
                grade.rating.0,
                grade.c.0,
                grade.ctr.0,
                grade.deciding.0,
                grade.grade as i32,
                i32::from(grade.limit),
            ],
        ),
        Err(refusal) => refusal.number(),
    }
}
