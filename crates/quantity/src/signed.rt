// Between signed numbers at the rim and naturals inside: the three steps that the code takes.
ghost use Rattle.std.specs.Prelude.{◌≡◌, ◌+◌, ◌≤◌, ◌<◌, pos, ◌-ℤ◌};
ghost use Rattle.laws.specs.Parts.{P, N};

// z and `floor`, where that is not below 0.
pub fn above(z: i32, floor: u32) -> u32
    requires { (N z ≤ floor) × (P z + floor < 2147483648) }
    ensures { result + N z ≡ floor + P z }
{
    (z + floor as i32) as u32
}

// `ceiling` less z, where that is not below 0.
pub fn below(z: i32, ceiling: u32) -> u32
    requires { (P z ≤ ceiling) × (N z + ceiling < 2147483648) }
    ensures { result + P z ≡ ceiling + N z }
{
    (ceiling as i32 - z) as u32
}

// n less k, as a signed number.
pub fn less(n: u32, k: u32) -> i32
    requires { (n < 2147483648) × (k < 2147483648) }
    ensures { result ≡ pos n -ℤ pos k }
{
    n as i32 - k as i32
}
