// Sides by their numbers.
ghost use Rattle.std.specs.Prelude.{◌≡◌};
ghost use Rattle.door.specs.Sides.{side_of};

use products::Side;

// 0 outside, any other number inside.
pub fn side_of(number: u32) -> Side
    ensures { result ≡ side_of number }
{
    match number {
        0 => Side::Outside,
        _ => Side::Inside,
    }
}
