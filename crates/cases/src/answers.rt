// The calls, by the number that a case begins with, and their answers as text.
use vectors::lists::{length_of, list_of};
use vectors::numbers::{Case, float, natural, signed};
use vectors::places::{NO_SET, UNWRITTEN, print_lent};
use vectors::stated::agrees;
use vectors::times::take_time;

// The lift list, in the first places of a lent list.
fn lift(case: Case, tenths: &[i32], sets: &mut [u16], out: &mut [i32]) -> Option<u32> {
    let places = natural(case, 5) as usize;
    if sets.len() < places {
        return None;
    }
    Some(desk_c::imbrolt_lift(
        natural(case, 1),
        tenths,
        natural(case, 3),
        signed(case, 4),
        &mut sets[..places],
        out,
    ))
}

// Makes the call of a case that has no list.
fn call_alone(case: Case, out: &mut [i32; 17]) -> Option<u32> {
    let returned = match natural(case, 0) {
        2 => desk_c::imbrolt_take_reading(natural(case, 1), float(case, 2), out),
        4 => take_time(float(case, 1), out),
        5 => desk_c::imbrolt_correct_field(signed(case, 1), signed(case, 2), out),
        6 => desk_c::imbrolt_correct_laboratory(signed(case, 1), signed(case, 2), out),
        7 => desk_c::imbrolt_standardized(
            float(case, 1),
            float(case, 2),
            float(case, 3),
            float(case, 4),
            out,
        ),
        _ => return None,
    };
    Some(returned)
}

// Makes the call of a case, on the first places of its list, as many as are stated. None where the line is no case: an unknown
// call, a length over 144, more than 800 places.
fn call(
    case: Case,
    tenths: &[i32; 144],
    marks: &[u8; 144],
    floats: &[f32; 144],
    sets: &mut [u16; 800],
    out: &mut [i32; 17],
) -> Option<u32> {
    let length = length_of(case);
    if 144 < length {
        return None;
    }
    let tenths = &tenths[..length];
    let marks = &marks[..length];
    let floats = &floats[..length];
    let returned = match natural(case, 0) {
        1 => desk_c::imbrolt_rate(natural(case, 1), tenths, natural(case, 3), out),
        3 => desk_c::imbrolt_rate_readings(natural(case, 1), marks, floats, out),
        8 => desk_c::imbrolt_octaves(tenths, natural(case, 2), out),
        9 => desk_c::imbrolt_specimens(marks, floats, out),
        10 => desk_c::imbrolt_cover(tenths, natural(case, 2), out),
        11 => desk_c::imbrolt_grade(natural(case, 1), marks, floats, out),
        12 => return lift(case, tenths, sets, out),
        _ => return call_alone(case, out),
    };
    Some(returned)
}

// A line with what the call of a case returns and what it wrote, and a mark at its end where the library says something else when
// it is asked with what lies past the stated length; `?` for what is no case.
pub fn answer(rt: &impl Print, case: Case) {
    let list = list_of(case);
    let mut sets = [NO_SET; 800];
    let mut out = [UNWRITTEN; 17];
    let Some(returned) = call(
        case,
        &list.tenths,
        &list.marks,
        &list.floats,
        &mut sets,
        &mut out,
    ) else {
        let _ = println!(rt; "?");
        return;
    };
    let _ = print!(rt; "{returned}");
    print_lent(rt, &out, &sets);
    if !agrees(case, list, returned, out[0]) {
        let _ = print!(rt; " !");
    }
    let _ = println!(rt);
}
