// A position of the reference curve.
ghost use Rattle.std.specs.Prelude.{◌≡◌, ◌+◌, ◌*◌, ◌≤◌, ◌<◌};

// Whole decibels, counted so that a stricter position is the greater. A level is in tenths: neither is passed for the other.
#[derive(Clone, Copy)]
pub struct Position(pub u32);

impl Position {
    // The height of the curve there, in tenths, as levels are.
    pub fn tenths(self) -> u32
        requires { self.0 < 500 }
        ensures { result ≡ 10 * self.0 }
    {
        10 * self.0
    }

    // One shift of the curve: a position 1 dB less strict.
    pub fn eased(self) -> Position
        requires { 1 ≤ self.0 }
        ensures { result.0 + 1 ≡ self.0 }
    {
        Position(self.0 - 1)
    }
}
