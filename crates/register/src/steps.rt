// The entry step: what a call is answered, and the register that it leaves.
ghost use Rattle.std.specs.Prelude.{true, ◌≡◌, ◌≤◌, ◌<◌, IfOk};
ghost use Rattle.kinds.specs.Kinds.{kind_number};
ghost use Rattle.entry.specs.Entries.{call_of, entry_of};
ghost use Rattle.register.specs.Registers.{sound, with_entry, place_due, due_of, billed_of, after_of};
ghost use Rattle.register.specs.Steps.{accepted_by, bill, RoomFor};
ghost use Rattle.register.specs.Looks.{WordsOf};

use crate::lookup::place_of;
use crate::registers::Register;
use crate::sound::look;
use entry::{Entry, entry_of, same_bands, word_of};
use kinds::Kind;
use quantity::{BandSet, Fen, Refusal, is_key_of};
use rating::{Sheet, rate};

// The sheet and what is charged now.
#[derive(Clone, Copy)]
pub struct Billed {
    pub sheet: Sheet,
    pub charged: Fen,
}

// A register and what was answered.
#[derive(Clone, Copy)]
pub struct Step {
    pub register: Register,
    pub billed: Result<Billed, Refusal>,
}

// What an accepted call comes to: the same again, or a new key, which is entered and charged.
#[derive(Clone, Copy)]
enum Accepted {
    Again(Sheet),
    New(Sheet, Entry),
}

// What an accepted call is answered: the same again is charged nothing, a new key its price.
fn bill(accepted: Accepted) -> Billed
    ensures { result ≡ bill accepted }
{
    match accepted {
        Accepted::Again(sheet) => Billed {
            sheet,
            charged: Fen(0),
        },
        Accepted::New(sheet, e) => Billed {
            sheet,
            charged: e.price,
        },
    }
}

// A register and what was answered, out of a reference, so that the register is copied once.
fn step_of(register: &Register, billed: Result<Billed, Refusal>) -> Step
    ensures { result ≡ record { register = register.now; billed = billed } }
{
    Step {
        register: *register,
        billed,
    }
}

// One entry more, at the place of the count.
#[tactic(auto, unfolding(crate::specs::Registers::with_entry))]
fn push(register: &mut Register, e: Entry)
    requires { register.old.count < 512 }
    ensures { register.new ≡ with_entry register.old e }
{
    register.entries[register.count] = e;
    register.count += 1;
}

// What becomes of a rated call: the same again, 17, a new key, or 18.
#[tactic(auto, using(crate::proofs::Soundness::sound_most, crate::proofs::Soundness::sound_short))]
fn place(
    register: &Register,
    words: &[u32; 512],
    e: Entry,
    kind: Kind,
    sheet: Sheet,
) -> Result<Accepted, Refusal>
    requires is_sound { sound register.now ≡ true }
    requires words_of { WordsOf register.now register.now.count words.now }
    requires length_bound { (e.length ≤ 32) × (e.kind ≡ kind_number kind) }
    ensures accepted { result ≡ accepted_by (place_due register.now e sheet) e }
    ensures room { IfOk result (RoomFor register.now) }
{
    match place_of(register, words, register.count, e, word_of(e)) {
        Some(at) if same_bands(register.entries[at], e, kind) => Ok(Accepted::Again(sheet)),
        Some(_) => Err(Refusal::OtherBands),
        None if register.count < 512 => Ok(Accepted::New(sheet, e)),
        None => Err(Refusal::RegisterFull),
    }
}

// 19, then 11, then all of rating, then 16, then what becomes of a rated call.
#[tactic(auto, unfolding(crate::specs::Registers::due_of))]
fn accept(
    register: &Register,
    customer: u64,
    key: &[u8],
    kind: Kind,
    set: BandSet,
    price: Fen,
) -> Result<Accepted, Refusal>
    ensures accepted { result ≡ accepted_by (due_of register.now (call_of customer key.now kind set price.0)) (entry_of (call_of customer key.now kind set price.0)) }
    ensures room { IfOk result (RoomFor register.now) }
{
    let words = look(register).ok_or(Refusal::RegisterDamaged)?;
    if !is_key_of(key) {
        return Err(Refusal::NotARequest);
    }
    let sheet = rate(kind, set)?;
    if !price.in_range() {
        return Err(Refusal::PriceRange);
    }
    let e = entry_of(customer, key, kind, set, price);
    place(register, &words, e, kind, sheet)
}

// One call: the sheet and what is charged now, or the refusal, which leaves the register as it was.
#[tactic(auto, unfolding(crate::specs::Registers::billed_of, crate::specs::Registers::after_of, entry::specs::Entries::entry_of))]
pub fn enter(
    mut register: Register,
    customer: u64,
    key: &[u8],
    kind: Kind,
    set: BandSet,
    price: Fen,
) -> Step
    ensures billed { result.billed ≡ billed_of register (call_of customer key.now kind set price.0) }
    ensures register_after { result.register ≡ after_of register (call_of customer key.now kind set price.0) }
{
    let accepted = accept(&register, customer, key, kind, set, price);
    if let Ok(Accepted::New(_, e)) = accepted {
        push(&mut register, e);
    }
    step_of(&register, accepted.map(bill))
}
