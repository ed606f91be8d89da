// Lists of readings, from the lowest band up: the first refusal in that order is the one given.
ghost use Rattle.std.specs.Prelude.{◌≡◌, ◌≤◌, ◌<◌};
ghost use Rattle.measurement.specs.Lists.{all_of, list_of, weight_of, head_of};

use intake::take_reading;
use quantity::{BandSet, Reading, Refusal, Tenths};

// Many readings: bit i of `marks` says that reading i is a limit value.
#[derive(Clone, Copy)]
pub struct Readings {
    pub values: [Tenths; 48],
    pub marks: u64,
}

// What a limit value adds to the marks at place i.
fn weight(limit: bool, i: usize) -> u64
    requires { i < 48 }
    ensures { result ≡ weight_of limit i }
{
    u64::from(limit) << i
}

// The first `count` readings, or the refusal of the first that is refused.
#[tactic(auto, using(crate::proofs::Runs::turns), unfolding(crate::specs::Lists::all_of))]
pub fn take_all(readings: [Reading; 48], count: usize) -> Result<Readings, Refusal>
    requires { count ≤ 48 }
    ensures { result ≡ all_of readings count }
{
    let mut values = [Tenths(0); 48];
    let mut marks = 0u64;
    for i in 0..count {
        let taken = take_reading(readings[i])?;
        values[i] = taken.value;
        marks += weight(taken.limit, i);
    }
    Ok(Readings { values, marks })
}

// The lowest sixteen of 48 values.
fn head(values: [Tenths; 48]) -> [Tenths; 16]
    ensures { result ≡ head_of values }
{
    let mut out = [Tenths(0); 16];
    out.copy_from_slice(&values[..16]);
    out
}

// The readings of a band list, `len` of them stated, for a kind of `bands` bands.
#[tactic(auto, using(crate::proofs::Runs::exits))]
pub fn take_list(readings: [Reading; 48], len: usize, bands: usize) -> Result<BandSet, Refusal>
    requires { bands ≤ 16 }
    ensures { result ≡ list_of readings len bands }
{
    if len != bands {
        return Err(Refusal::BandCount);
    }
    let all = take_all(readings, bands)?;
    Ok(BandSet {
        values: head(all.values),
        marks: all.marks as u16,
        len: bands,
    })
}
