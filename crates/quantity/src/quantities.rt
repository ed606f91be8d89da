// Tenths, decibels, hundredths, fen, readings and band sets.
ghost use Rattle.std.specs.Prelude.{◌≡◌, ◌≤◌, pos, negsuc};
ghost use Rattle.quantity.specs.Quantities.{in_range, even_half, half_even, priced};
ghost use Rattle.quantity.specs.Quantities.{InRange};

use crate::signed::{above, less};

// A measured or derived value, in tenths of a decibel.
#[repr(C)]
#[derive(Clone, Copy, PartialEq, Eq)]
pub struct Tenths(pub i32);

// A single number, in whole decibels: a rating, a target, a rounded term.
#[derive(Clone, Copy, PartialEq, Eq)]
pub struct Decibels(pub i32);

// A reverberation time, in hundredths of a second.
#[derive(Clone, Copy, PartialEq, Eq)]
pub struct Hundredths(pub u32);

// A price or a total, in fen.
#[repr(C)]
#[derive(Clone, Copy, PartialEq, Eq)]
pub struct Fen(pub u32);

// What the analyser gives for a band: a level, a limit value, or nothing.
#[derive(Clone, Copy)]
pub enum Reading {
    Level(f32),
    Limit(f32),
    Missing,
}

// The bands of a measurement from the lowest up: `len` values are stated, and bit i of `marks` says that band i is a limit
// value. What lies past the stated length never matters to an answer.
#[derive(Clone, Copy)]
pub struct BandSet {
    pub values: [Tenths; 16],
    pub marks: u16,
    pub len: usize,
}

// So many tenths in whole decibels, a half going to the even one.
fn even_half(tenths: u32) -> u32
    requires { tenths ≤ 20000 }
    ensures { result ≡ even_half tenths }
{
    // 5 carries a half up, 4 leaves it: up from an odd decibel, down from an even one
    let carry = 4 + tenths / 10 % 2;
    (tenths + carry) / 10
}

impl Tenths {
    // Whether this is a band value: -20.0 to 150.0 dB.
    #[tactic(auto, unfolding(crate::specs::Quantities::in_range))]
    pub fn in_range(self) -> bool
        ensures { result ≡ in_range self.0 }
    {
        -200 <= self.0 && self.0 <= 1500
    }

    // The nearest whole decibel, a half going to the even one.
    pub fn rounded(self) -> Decibels
        requires { InRange (negsuc 9999) (pos 10000) self.0 }
        ensures { result.0 ≡ half_even self.0 }
    {
        // counted from -1000 dB: that is even, so that what is even from there is even
        let tenths = above(self.0, 10000);
        Decibels(less(even_half(tenths), 1000))
    }
}

impl Fen {
    // Whether this is a price: 0 to 1,000,000 fen.
    #[tactic(auto, unfolding(crate::specs::Quantities::priced))]
    pub fn in_range(self) -> bool
        ensures { result ≡ priced self.0 }
    {
        self.0 <= 1000000
    }
}
