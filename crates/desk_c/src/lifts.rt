// The lift list.
#![tactic(auto, unfolding(crate::specs::Lifts::lift_answer, crate::specs::Lifts::lift_held, crate::specs::Lifts::list_by, lift::specs::Calls::answer_of, lift::specs::Calls::count_of))]

ghost use Rattle.std.specs.Prelude.{◌≡◌, length};
ghost use Rattle.lift.specs.Calls.{answer_of, count_answer};
ghost use Rattle.door.specs.Answers.{returned, held};
ghost use Rattle.desk_c.specs.Lifts.{list_by, lift_answer, lift_held};

use door::{give, set_from};
use kinds::{Kind, kind_of};
use quantity::{BandSet, Decibels};

// The number that the call gives where there is no room for the count: that of any other refusal, else 10. A list of its own
// stands in for the caller's, which is not touched.
fn number_alone(kind: Kind, set: BandSet, target: Decibels) -> u32
    ensures { result ≡ returned (count_answer (answer_of kind set target.0 1)) 0 }
{
    let mut list = [0u16; 1];
    match desk::lift(kind, set, target, &mut list) {
        Ok(_) => 10,
        Err(refusal) => refusal.number(),
    }
}

// The sets and their count, or the refusal's number.
fn give_lift(kind: Kind, set: BandSet, target: Decibels, list: &mut [u16], out: &mut [i32]) -> u32
    ensures value { result ≡ returned (count_answer (answer_of kind set target.0 (length list.old))) (length out.old) }
    ensures list_after { list.new ≡ list_by kind set target.0 list.old (length out.old) }
    ensures out_after { out.new ≡ held (count_answer (answer_of kind set target.0 (length list.old))) out.old }
{
    if out.len() < 1 {
        return number_alone(kind, set, target);
    }
    match desk::lift(kind, set, target, list) {
        Ok(n) => give(out, &[n as i32]),
        Err(refusal) => refusal.number(),
    }
}

// The least sets of one to three bands that reach the target, and their count.
#[unsafe(no_mangle)]
pub extern "C" fn imbrolt_lift(
    kind: u32,
    values: &[i32],
    marks: u32,
    target: i32,
    list: &mut [u16],
    out: &mut [i32],
) -> u32
    ensures value { result ≡ returned (lift_answer kind values.now marks target (length list.old)) (length out.old) }
    ensures list_after { list.new ≡ lift_held kind values.now marks target list.old (length out.old) }
    ensures out_after { out.new ≡ held (lift_answer kind values.now marks target (length list.old)) out.old }
{
    match kind_of(kind) {
        None => 1,
        Some(kind) => give_lift(kind, set_from(values, marks), Decibels(target), list, out),
    }
}
