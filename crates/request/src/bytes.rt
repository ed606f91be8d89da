// The digits of a line.
ghost use Rattle.std.specs.Prelude.{◌≡◌};
ghost use Rattle.quantity.specs.Keys.{between};
ghost use Rattle.answer.specs.Texts.{digit};

// Whether a byte is a digit.
pub fn is_digit(b: u8) -> bool
    ensures { result ≡ between (digit 0) (digit 9) b }
{
    b.is_ascii_digit()
}
