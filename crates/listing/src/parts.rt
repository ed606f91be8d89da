// Sets put together band by band.
ghost use Rattle.std.specs.Prelude.{◌≡◌, ℕ, ◌+◌, ◌^◌, ◌≤◌, ◌<◌, min, length};
ghost use Rattle.curve.specs.Levels.{at};
ghost use Rattle.laws.specs.Lists.{front};
ghost use Rattle.sets.specs.Gains.{by_gains, joined_by, Bounded, PartOf};

use std::marker::PhantomData;

// A set of bands as far as it is put together: its bands, the sum and the least of their gains, and the first band that may
// follow.
#[derive(Clone, Copy)]
struct Part {
    mask: u16,
    sum: u32,
    least: u32,
    from: usize,
}

// A set and one band more.
fn joined(part: Part, band: usize, gain: u32) -> Part
    requires band_bound { (band < 16) × (gain < 10000) }
    requires mask_bound { (part.mask < 2 ^ band) × (part.sum < 200000) }
    ensures mask_and_sum { (result.mask ≡ part.mask + 2 ^ band) × (result.sum ≡ part.sum + gain) }
    ensures least_and_from { (result.least ≡ min part.least gain) × (result.from ≡ band + 1) }
{
    Part {
        mask: part.mask + (1 << band),
        sum: part.sum + gain,
        least: part.least.min(gain),
        from: band + 1,
    }
}

// The bands that a part still gains: one, or one and then those of R. Each number of them is a type of its own, with nested loops
// of its own: the compiler lays them into one another, which a function that calls itself would keep apart.
trait Rest {
    // how many they are
    ghost more: { ℕ };

    // Writes the listed sets of a part and these bands to the front of `out`, in order, and counts them.
    fn put(part: Part, gains: &[u32], need: u32, out: &mut [u16]) -> usize
        requires part_of { PartOf (at gains.now) part.mask part.sum part.least part.from }
        requires bounded { Bounded gains.now (length gains.now) need }
        requires room { length (joined_by (at gains.now) need (length gains.now) more part.mask part.from) ≤ length out.old }
        ensures value { result ≡ length (joined_by (at gains.now) need (length gains.now) more part.mask part.from) }
        ensures out_after { out.new ≡ front (joined_by (at gains.now) need (length gains.now) more part.mask part.from) out.old };
}

struct One {}

struct Then<R>(PhantomData<R>);

type Two = Then<One>;

type Three = Then<Two>;

impl Rest for One {
    ghost more = { 1 };

    // With the last band the gains make up what is needed; without it, or without the least of the others, they do not.
    fn put(part: Part, gains: &[u32], need: u32, out: &mut [u16]) -> usize {
        if need <= part.sum {
            return 0;
        }
        let left = need - part.sum;
        let bound = left + part.least;
        let mut count = 0;
        for i in part.from..gains.len() {
            if left <= gains[i] && gains[i] < bound {
                out[count] = part.mask + (1 << i);
                count += 1;
            }
        }
        count
    }
}

impl<R: Rest> Rest for Then<R> {
    ghost more = { R.more + 1 };

    fn put(part: Part, gains: &[u32], need: u32, out: &mut [u16]) -> usize {
        let mut count = 0;
        for i in part.from..gains.len() {
            let longer = joined(part, i, gains[i]);
            count += R::put(longer, gains, need, &mut out[count..]);
        }
        count
    }
}

// Writes the listed sets to the front of `out`, in order, and counts them.
pub fn fill(gains: &[u32], need: u32, out: &mut [u16]) -> usize
    requires bounded { Bounded gains.now (length gains.now) need }
    requires room { length (by_gains (at gains.now) need (length gains.now)) ≤ length out.old }
    ensures value { result ≡ length (by_gains (at gains.now) need (length gains.now)) }
    ensures out_after { out.new ≡ front (by_gains (at gains.now) need (length gains.now)) out.old }
{
    // every gain is less than the least of no band
    let none = Part {
        mask: 0,
        sum: 0,
        least: 10000,
        from: 0,
    };
    let mut count = One::put(none, gains, need, out);
    count += Two::put(none, gains, need, &mut out[count..]);
    count += Three::put(none, gains, need, &mut out[count..]);
    count
}
