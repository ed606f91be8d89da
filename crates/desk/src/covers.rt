// Floor covers, doors and windows.
ghost use Rattle.std.specs.Prelude.{◌≡◌};
ghost use Rattle.desk.specs.Answers.{improvement_answer, graded_answer};
ghost use Rattle.desk.specs.Covers.{cover_of, grades_of};

use products::{Cover, Grade, Side};
use quantity::{BandSet, Reading, Refusal};

// The weighted improvement of a floor cover from sixteen improvements: 1, then 4, then 6 after all 4s.
pub fn cover(set: BandSet) -> Result<Cover, Refusal>
    ensures { improvement_answer result ≡ improvement_answer (cover_of set) }
{
    products::cover_of(set)
}

// The grade of a door or window from three specimens: 12, then the readings in order, each 3, 2, 4.
pub fn grade(readings: [Reading; 48], len: usize, side: Side) -> Result<Grade, Refusal>
    ensures { graded_answer result ≡ graded_answer (grades_of readings len side) }
{
    products::grade_of(readings, len, side)
}
