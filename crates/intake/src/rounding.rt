// The whole number of units nearest a float, from its bits.
ghost use Rattle.std.specs.Prelude.{◌≡◌, ◌*◌, ◌^◌, ◌≤◌, ◌<◌};
ghost use Rattle.std.specs.Float.Ieee.{of_bits};
ghost use Rattle.std.specs.Float.{binary32};
ghost use Rattle.intake.specs.Nearest.{nearest_to, size_of, whole_of};

// A float in units of 1 / scale.
#[derive(Clone, Copy)]
pub enum Whole {
    // the nearest whole number of units
    Units(i32),
    // at least 256 in size, which no range reaches
    Beyond,
    // NaN or infinite
    NotFinite,
}

// How far from 0 the nearest whole number of units of digits / 2 ^ places is. A half goes up, so toward 0 where the number is
// negative: there 1 is held back before the half is added.
#[tactic(auto, using(crate::proofs::Shifts::shifted))]
fn size(negative: bool, scale: u64, digits: u64, places: u64) -> u64
    requires scale_bound { (scale ≤ 100) × (digits < 16777216) }
    requires places_bound { (16 ≤ places) × (places ≤ 31) }
    ensures { result ≡ size_of negative (scale * digits) (2 ^ places) }
{
    (2 * (scale * digits) + (1 << places) - u64::from(negative)) >> (places + 1)
}

// The nearest whole number of units of digits / 2 ^ places.
#[tactic(auto, using(crate::proofs::Shifts::sign_laws))]
fn units(negative: bool, scale: u64, digits: u64, places: u64) -> i32
    requires scale_bound { (scale ≤ 100) × (digits < 16777216) }
    requires places_bound { (16 ≤ places) × (places ≤ 31) }
    ensures { result ≡ nearest_to negative (scale * digits) (2 ^ places) }
{
    let size = size(negative, scale, digits, places) as i32;
    if negative { -size } else { size }
}

// The same of a bit pattern: a sign, a field for the exponent, 23 digits. From field 135 on the float is 256 or more in size;
// up to field 118 it is below 1 / 200, and rounds to 0.
#[tactic(auto, using(crate::proofs::Fields::field_laws))]
fn round_bits(bits: u32, scale: u64) -> Whole
    requires { scale ≤ 100 }
    ensures { result ≡ whole_of scale (of_bits binary32 bits) }
{
    let field = bits % 2147483648 / 8388608;
    match field {
        255 => Whole::NotFinite,
        135.. => Whole::Beyond,
        ..=118 => Whole::Units(0),
        _ => {
            let negative = 2147483648 <= bits;
            let digits = 8388608 + bits % 8388608;
            let places = 150 - field;
            Whole::Units(units(negative, scale, u64::from(digits), u64::from(places)))
        }
    }
}

// The nearest whole number of units of a float.
#[tactic(auto, using(crate::proofs::Ranges::no_number))]
pub fn round(x: f32, scale: u64) -> Whole
    requires { scale ≤ 100 }
    ensures { result ≡ whole_of scale x }
{
    if x.is_nan() {
        return Whole::NotFinite;
    }
    round_bits(f32::to_bits(x), scale)
}
