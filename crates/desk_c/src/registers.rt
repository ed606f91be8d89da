// The register of request keys, in the caller's memory, in the form of `desk`'s calls: the register is taken from there whole and
// handed to a step by value, and what the step leaves of it is put back.
ghost use Rattle.std.specs.Prelude.{◌≡◌, length};
ghost use Rattle.register.specs.Registers.{opened};
ghost use Rattle.door.specs.Answers.{returned, held};
ghost use Rattle.till.specs.Registers.{call_given, bill_answer, bill_left, owed_given, close_left};

use register::Register;
use till::{bill_given, close_given, owed_given};

// A register without entries.
#[unsafe(no_mangle)]
pub extern "C" fn imbrolt_open_register(register: &mut Register) -> u32
    ensures value { result ≡ 0 }
    ensures register_after { register.new ≡ opened }
{
    *register = register::open_register();
    0
}

// The sheet and what is charged now.
#[unsafe(no_mangle)]
pub extern "C" fn imbrolt_bill(
    register: &mut Register,
    customer: u64,
    key: &[u8],
    kind: u32,
    values: &[i32],
    marks: u32,
    price: u32,
    out: &mut [i32],
) -> u32
    ensures value { result ≡ returned (bill_answer register.old (call_given customer key.now kind values.now marks price)) (length out.old) }
    ensures register_after { register.new ≡ bill_left register.old (call_given customer key.now kind values.now marks price) (length out.old) }
    ensures out_after { out.new ≡ held (bill_answer register.old (call_given customer key.now kind values.now marks price)) out.old }
{
    let whole = *register;
    let step = bill_given(whole, customer, key, kind, values, marks, price, out);
    *register = step.register;
    step.number
}

// A customer's total.
#[unsafe(no_mangle)]
pub extern "C" fn imbrolt_owed(register: &Register, customer: u64, out: &mut [i32]) -> u32
    ensures value { result ≡ returned (owed_given register.now customer) (length out.old) }
    ensures out_after { out.new ≡ held (owed_given register.now customer) out.old }
{
    let whole = *register;
    owed_given(whole, customer, out)
}

// A customer's total, handed out: the customer's entries go.
#[unsafe(no_mangle)]
pub extern "C" fn imbrolt_close(register: &mut Register, customer: u64, out: &mut [i32]) -> u32
    ensures value { result ≡ returned (owed_given register.old customer) (length out.old) }
    ensures register_after { register.new ≡ close_left register.old customer (length out.old) }
    ensures out_after { out.new ≡ held (owed_given register.old customer) out.old }
{
    let whole = *register;
    let step = close_given(whole, customer, out);
    *register = step.register;
    step.number
}
