// The grade of a door or window.
ghost use Rattle.std.specs.Prelude.{◌≡◌};
ghost use Rattle.rating.specs.Bounds.{SmallSheet};
ghost use Rattle.rating.specs.Sheets.{term_of};
ghost use Rattle.products.specs.Grades.{grade_of, deciding_of, sheet_grade, grades_of};

use kinds::Kind;
use means::specimens;
use quantity::{Decibels, Reading, Refusal};
use rating::{Sheet, rate};

// Where the door or window stands.
#[derive(Clone, Copy)]
pub enum Side {
    Outside,
    Inside,
}

// The rating of the means, its two terms, the number that decides, the grade, and the mark.
#[derive(Clone, Copy)]
pub struct Grade {
    pub rating: Decibels,
    pub c: Decibels,
    pub ctr: Decibels,
    pub deciding: Decibels,
    pub grade: u32,
    pub limit: bool,
}

// The grade of a deciding number (004, table 1).
#[tactic(auto, unfolding(crate::specs::Grades::grade_of))]
fn step(deciding: Decibels) -> u32
    ensures { result ≡ grade_of deciding.0 }
{
    match deciding.0 {
        ..=19 => 0,
        20..=24 => 1,
        25..=29 => 2,
        30..=34 => 3,
        35..=39 => 4,
        40..=44 => 5,
        _ => 6,
    }
}

// The second term; an airborne sheet has one.
fn second_of(term: Option<Decibels>) -> Decibels
    ensures { result.0 ≡ term_of term }
{
    term.unwrap_or(Decibels(0))
}

// The deciding number: by Ctr outside, by C inside.
fn deciding_of(side: Side, sheet: Sheet) -> Decibels
    requires { SmallSheet sheet }
    ensures { result.0 ≡ deciding_of side sheet }
{
    let term = match side {
        Side::Outside => second_of(sheet.second),
        Side::Inside => sheet.first,
    };
    Decibels(sheet.rating.0 + term.0)
}

// What the sheet of the means says of the door or window.
fn sheet_grade(side: Side, sheet: Sheet) -> Grade
    requires { SmallSheet sheet }
    ensures { result ≡ sheet_grade side sheet }
{
    let deciding = deciding_of(side, sheet);
    Grade {
        rating: sheet.rating,
        c: sheet.first,
        ctr: second_of(sheet.second),
        deciding,
        grade: step(deciding),
        limit: sheet.limit,
    }
}

// The grade of three specimens, given as 48 readings one specimen after the other: 12 where `len` is another number, then the
// refusal of the first reading that is refused.
#[tactic(auto, unfolding(crate::specs::Grades::grades_of))]
pub fn grade_of(readings: [Reading; 48], len: usize, side: Side) -> Result<Grade, Refusal>
    ensures { result ≡ grades_of readings len side }
{
    let set = specimens(readings, len)?;
    let sheet = rate(Kind::A3, set)?;
    Ok(sheet_grade(side, sheet))
}
