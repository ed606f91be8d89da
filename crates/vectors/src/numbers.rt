// The numbers of a case line, read byte by byte.
use quantity::signed::less;

#[derive(Clone, Copy)]
pub struct Case {
    pub sizes: [u64; 104],
    pub negative: [bool; 104],
    // the place that is being read
    pub at: usize,
}

pub fn empty() -> Case {
    Case {
        sizes: [0; 104],
        negative: [false; 104],
        at: 0,
    }
}

// The case with one byte more: a minus, a digit or a blank. Numbers past the last place, and digits past what a number
// holds, are dropped.
pub fn fed(case: Case, b: u8) -> Case {
    let mut next = case;
    let at = next.at;
    if 103 < at {
        return next;
    }
    if b == b'-' {
        next.negative[at] = true;
        return next;
    }
    if b == b' ' {
        next.at = at + 1;
        return next;
    }
    let size = next.sizes[at];
    if size < 1000000000000 && b.is_ascii_digit() {
        next.sizes[at] = size * 10 + u64::from(b - b'0');
    }
    next
}

// The number at a place, as a natural of 32 bits; 0 where it is none.
pub fn natural(case: Case, i: usize) -> u32 {
    if 103 < i {
        return 0;
    }
    let size = case.sizes[i];
    if 4294967295 < size {
        return 0;
    }
    size as u32
}

// The number at a place, with its sign; the nearest that 32 bits hold.
pub fn signed(case: Case, i: usize) -> i32 {
    if 103 < i {
        return 0;
    }
    let size = case.sizes[i];
    let below = case.negative[i];
    if 2147483647 < size {
        if below {
            return -2147483648;
        }
        return 2147483647;
    }
    if below {
        return less(0, size as u32);
    }
    size as i32
}

// The float whose bits stand at a place. Every NaN is the same one to the library.
pub fn float(case: Case, i: usize) -> f32 {
    let bits = natural(case, i);
    if 2139095040 < bits % 2147483648 {
        return 0.0 / 0.0;
    }
    f32::from_bits(bits)
}
