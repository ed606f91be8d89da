// The calls with a list once more, with what lies past the stated length: the library is handed all 16 tenths or 48 readings of a
// line and the length beside them, where the C functions are lent no more than the length.
use crate::lists::{List, length_of};
use crate::numbers::{Case, natural, signed};
use crate::places::UNWRITTEN;
use door::{readings_from, set_from, side_of};
use kinds::{Kind, kind_of};
use products::{Cover, Grade};
use quantity::{BandSet, Decibels, Reading, Refusal};
use rating::Sheet;

// What is compared of an answer: its first number, or the refusal's.
type Said = Result<i32, u32>;

// All tenths of the line as a set of the stated length.
fn set_of(case: Case, list: List, marks: u32) -> BandSet {
    BandSet {
        len: length_of(case),
        ..set_from(&list.tenths, marks)
    }
}

// All readings of the line.
fn readings_of(list: List) -> [Reading; 48] {
    readings_from(&list.marks, &list.floats)
}

fn said_rated(rated: Result<Sheet, Refusal>) -> Said {
    rated.map(|sheet| sheet.rating.0).map_err(Refusal::number)
}

fn said_intake(intake: Result<BandSet, Refusal>) -> Said {
    intake.map(|set| set.values[0].0).map_err(Refusal::number)
}

fn said_cover(cover: Result<Cover, Refusal>) -> Said {
    cover
        .map(|cover| cover.improvement.0)
        .map_err(Refusal::number)
}

fn said_graded(graded: Result<Grade, Refusal>) -> Said {
    graded.map(|grade| grade.rating.0).map_err(Refusal::number)
}

fn rate(case: Case, list: List) -> Said {
    match kind_of(natural(case, 1)) {
        None => Err(1),
        Some(kind) => said_rated(desk::rate(kind, set_of(case, list, natural(case, 3)))),
    }
}

fn rate_readings(case: Case, list: List) -> Said {
    match kind_of(natural(case, 1)) {
        None => Err(1),
        Some(kind) => said_rated(desk::rate_readings(kind, readings_of(list), length_of(case))),
    }
}

// No C function returns it: stands for what a call of more places than are lent would say.
const NO_CALL: u32 = u32::MAX;

// The lift list, in the first places of a list that is looked at no further.
fn lift_into(case: Case, kind: Kind, set: BandSet, sets: &mut [u16]) -> Said {
    let places = natural(case, 5) as usize;
    if sets.len() < places {
        return Err(NO_CALL);
    }
    match desk::lift(kind, set, Decibels(signed(case, 4)), &mut sets[..places]) {
        Ok(n) => Ok(n as i32),
        Err(refusal) => Err(refusal.number()),
    }
}

fn lift(case: Case, list: List) -> Said {
    let mut sets = [0u16; 800];
    match kind_of(natural(case, 1)) {
        None => Err(1),
        Some(kind) => lift_into(case, kind, set_of(case, list, natural(case, 3)), &mut sets),
    }
}

// On a refusal the first place is not written.
fn same(said: Said, returned: u32, first: i32) -> bool {
    match said {
        Ok(number) => returned == 0 && number == first,
        Err(refusal) => returned == refusal && first == UNWRITTEN,
    }
}

// Whether the library, asked so, says what the C function returned and put first; true for a call without a list.
pub fn agrees(case: Case, list: List, returned: u32, first: i32) -> bool {
    let said = match natural(case, 0) {
        1 => rate(case, list),
        3 => rate_readings(case, list),
        8 => said_intake(desk::octaves(set_of(case, list, natural(case, 2)))),
        9 => said_intake(desk::specimens(readings_of(list), length_of(case))),
        10 => said_cover(desk::cover(set_of(case, list, natural(case, 2)))),
        11 => said_graded(desk::grade(
            readings_of(list),
            length_of(case),
            side_of(natural(case, 1)),
        )),
        12 => lift(case, list),
        _ => return true,
    };
    same(said, returned, first)
}
