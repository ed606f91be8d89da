// The register's calls out of numbers and lent arrays, by value: `desk_c` takes the register from where it stands and puts it back.
ghost use Rattle.std.specs.Prelude.{◌≡◌, length};
ghost use Rattle.register.specs.Registers.{billed_answer, owed_answer};
ghost use Rattle.door.specs.Answers.{returned, held};
ghost use Rattle.till.specs.Registers.{kind_asked, bands_asked, call_given, bill_answer, bill_left, owed_given, close_left, BillFits, OwedFits};

use door::{give, set_from, sheet_numbers};
use kinds::{Kind, kind_of};
use ledger::close_for;
use quantity::{BandSet, Fen, Refusal};
use register::{Billed, Register, enter, owed_by};

// A register as a call leaves it, and the number that the call returns.
#[derive(Clone, Copy)]
pub struct Changed {
    pub register: Register,
    pub number: u32,
}

fn kind_asked(named: Option<Kind>) -> Kind
    ensures { result ≡ kind_asked named }
{
    named.unwrap_or(Kind::A3)
}

fn bands_asked(named: Option<Kind>, set: BandSet) -> BandSet
    ensures { result ≡ bands_asked named set }
{
    match named {
        Some(_) => set,
        None => BandSet { len: 0, ..set },
    }
}

// The numbers of a sheet and what is charged now, or the refusal's number.
fn give_billed(out: &mut [i32], billed: Result<Billed, Refusal>) -> u32
    requires { BillFits billed }
    ensures value { result ≡ returned (billed_answer billed) (length out.old) }
    ensures out_after { out.new ≡ held (billed_answer billed) out.old }
{
    match billed {
        Ok(billed) => {
            let mut answer = [0i32; 7];
            answer[..6].copy_from_slice(&sheet_numbers(billed.sheet)[..6]);
            answer[6] = billed.charged.0 as i32;
            give(out, &answer)
        }
        Err(refusal) => refusal.number(),
    }
}

// A total, or the refusal's number.
fn give_owed(out: &mut [i32], owed: Result<Fen, Refusal>) -> u32
    requires { OwedFits owed }
    ensures value { result ≡ returned (owed_answer owed) (length out.old) }
    ensures out_after { out.new ≡ held (owed_answer owed) out.old }
{
    match owed {
        Ok(total) => give(out, &[total.0 as i32]),
        Err(refusal) => refusal.number(),
    }
}

// One call of `bill`. Where the lent array has no room for the answer, the register is not changed.
#[tactic(auto, using(crate::proofs::Bills::bill_fits), unfolding(crate::specs::Registers::call_given, crate::specs::Registers::bill_answer, crate::specs::Registers::bill_left))]
pub fn bill_given(
    register: Register,
    customer: u64,
    key: &[u8],
    kind: u32,
    values: &[i32],
    marks: u32,
    price: u32,
    out: &mut [i32],
) -> Changed
    ensures number { result.number ≡ returned (bill_answer register (call_given customer key.now kind values.now marks price)) (length out.old) }
    ensures register_after { result.register ≡ bill_left register (call_given customer key.now kind values.now marks price) (length out.old) }
    ensures out_after { out.new ≡ held (bill_answer register (call_given customer key.now kind values.now marks price)) out.old }
{
    let named = kind_of(kind);
    let set = bands_asked(named, set_from(values, marks));
    let step = enter(register, customer, key, kind_asked(named), set, Fen(price));
    if out.len() < 7 {
        return Changed {
            register,
            number: give_billed(out, step.billed),
        };
    }
    Changed {
        register: step.register,
        number: give_billed(out, step.billed),
    }
}

// One call of `owed`.
#[tactic(auto, using(crate::proofs::Bills::owed_fits), unfolding(crate::specs::Registers::owed_given))]
pub fn owed_given(register: Register, customer: u64, out: &mut [i32]) -> u32
    ensures value { result ≡ returned (owed_given register customer) (length out.old) }
    ensures out_after { out.new ≡ held (owed_given register customer) out.old }
{
    give_owed(out, owed_by(register, customer))
}

// One call of `close`. Where the lent array has no room for the total, the register is not changed.
#[tactic(auto, using(crate::proofs::Bills::owed_fits), unfolding(crate::specs::Registers::owed_given, crate::specs::Registers::close_left))]
pub fn close_given(register: Register, customer: u64, out: &mut [i32]) -> Changed
    ensures number { result.number ≡ returned (owed_given register customer) (length out.old) }
    ensures register_after { result.register ≡ close_left register customer (length out.old) }
    ensures out_after { out.new ≡ held (owed_given register customer) out.old }
{
    let step = close_for(register, customer);
    if out.len() < 1 {
        return Changed {
            register,
            number: give_owed(out, step.owed),
        };
    }
    Changed {
        register: step.register,
        number: give_owed(out, step.owed),
    }
}
