// The list of a case: tenths, or readings by their marks and floats.
ghost use Rattle.std.specs.Prelude.{◌≤◌, IfSome};

use crate::numbers::{Case, float, natural, signed};

// Where the length of the list stands in a line, and where the list begins.
#[derive(Clone, Copy)]
struct Layout {
    length: usize,
    list: usize,
}

// The numbers of a line from its list on, as tenths and as pairs of a mark and a float; zeros past the end of the line.
#[derive(Clone, Copy)]
pub struct List {
    pub tenths: [i32; 144],
    pub marks: [u8; 144],
    pub floats: [f32; 144],
}

const NO_LIST: List = List {
    tenths: [0; 144],
    marks: [0; 144],
    floats: [0.0; 144],
};

// The layout of a call's lines, if it has a list.
fn layout_of(call: u32) -> Option<Layout>
    ensures { IfSome result (λ l. l.list ≤ 104) }
{
    match call {
        1 => Some(Layout { length: 2, list: 4 }),
        3 => Some(Layout { length: 2, list: 3 }),
        8 => Some(Layout { length: 1, list: 3 }),
        9 => Some(Layout { length: 1, list: 2 }),
        10 => Some(Layout { length: 1, list: 3 }),
        11 => Some(Layout { length: 2, list: 3 }),
        12 => Some(Layout { length: 2, list: 6 }),
        _ => None,
    }
}

fn list_from(case: Case, from: usize) -> List
    requires { from ≤ 104 }
{
    let mut tenths = [0i32; 144];
    let mut marks = [0u8; 144];
    let mut floats = [0.0f32; 144];
    for i in 0..144 {
        tenths[i] = signed(case, from + i);
        marks[i] = (natural(case, from + 2 * i) % 256) as u8;
        floats[i] = float(case, from + 2 * i + 1);
    }
    List {
        tenths,
        marks,
        floats,
    }
}

pub fn list_of(case: Case) -> List {
    match layout_of(natural(case, 0)) {
        Some(layout) => list_from(case, layout.list),
        None => NO_LIST,
    }
}

// The stated length of the list.
pub fn length_of(case: Case) -> usize {
    match layout_of(natural(case, 0)) {
        Some(layout) => natural(case, layout.length) as usize,
        None => 0,
    }
}
