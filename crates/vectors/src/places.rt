// The places of the arrays that are lent to a call: what they hold before it, and what is printed of them after it.
ghost use Rattle.std.specs.Prelude.{◌≤◌, length};

// What a lent place holds before a call. No answer has it: all that the call wrote is printed, past its answer or on a refusal
// too.
pub const UNWRITTEN: i32 = -2147483648;

// The same for a place of a list of sets: no set of one to three bands has it.
pub const NO_SET: u16 = 65535;

fn number_of(set: u16) -> i32 {
    if set == NO_SET {
        return UNWRITTEN;
    }
    set as i32
}

fn numbers_of(sets: &[u16; 800]) -> [i32; 800] {
    sets.map(number_of)
}

// The place after the last one that was written.
fn end_of(places: &[i32]) -> usize
    ensures { result ≤ length places.now }
{
    match places.iter().rposition(|z| *z != UNWRITTEN) {
        Some(last) => last + 1,
        None => 0,
    }
}

// A blank and the number of a place, or a dot where it was not written.
fn print_place(rt: &impl Print, z: i32) {
    if z <= UNWRITTEN {
        let _ = print!(rt; " .");
        return;
    }
    let _ = print!(rt; " {z}");
}

// Every place up to the last written one, so that a number in a wrong place shows.
fn print_places(rt: &impl Print, places: &[i32]) {
    for z in &places[..end_of(places)] {
        print_place(rt, *z);
    }
}

// What a call wrote, to its array of numbers and to its list of sets.
pub fn print_lent(rt: &impl Print, out: &[i32; 17], sets: &[u16; 800]) {
    print_places(rt, out);
    let numbers = numbers_of(sets);
    print_places(rt, &numbers);
}
