// The lift list.
ghost use Rattle.std.specs.Prelude.{◌≡◌, length};
ghost use Rattle.desk.specs.Quantities.{band_of};
ghost use Rattle.desk.specs.Answers.{count_answer};
ghost use Rattle.desk.specs.Lift.{lift_list, answer_of, buffer_by};

use kinds::Kind;
use quantity::{BandSet, Decibels, Refusal};

// The least sets of one to three bands that reach the target, from place 0 of `out` on, and their count: 1, 4, then 9, 8, 10.
// Places after the count keep their contents; on a refusal all do.
pub fn lift(kind: Kind, set: BandSet, target: Decibels, out: &mut [u16]) -> Result<usize, Refusal>
    ensures value { count_answer result ≡ count_answer (answer_of kind set target.0 (length out.old)) }
    ensures out_after { out.new ≡ buffer_by (answer_of kind set target.0 (length out.old)) (lift_list kind (band_of set) target.0) out.old }
{
    lift::lift(kind, set, target, out)
}
