// The register of request keys, updated where it stands in the caller's memory (document 02, (x) and (xi)). `bill`, `owed` and
// `close` are of one form: the register is taken from there whole and handed to a step by value; `bill` and `close` put back what
// the step leaves of it.
ghost use Rattle.std.specs.Prelude.{◌≡◌};
ghost use Rattle.desk.specs.Answers.{billed_answer, owed_answer};
ghost use Rattle.desk.specs.Registers.{opened, call_of, billed_of, after_of, owed_of, closed_of};

use kinds::Kind;
use ledger::close_for;
use quantity::{BandSet, Fen, Refusal};
use register::{Billed, Register, enter, owed_by};

// A register without entries.
pub fn open_register() -> Register
    ensures { result ≡ opened }
{
    register::open_register()
}

// The sheet and what is charged now: the price for a new key, 0 for the same customer, key, kind and bands again. Refusals in
// their order: 19, 11, those of rating (1, 4), 16, 17, 18. A new key changes the entry at the place of the count, and the
// count; otherwise the register is unchanged.
pub fn bill(
    register: &mut Register,
    customer: u64,
    key: &[u8],
    kind: Kind,
    set: BandSet,
    price: Fen,
) -> Result<Billed, Refusal>
    ensures value { billed_answer result ≡ billed_answer (billed_of register.old (call_of customer key.now kind set price.0)) }
    ensures register_after { register.new ≡ after_of register.old (call_of customer key.now kind set price.0) }
{
    let whole = *register;
    let step = enter(whole, customer, key, kind, set, price);
    *register = step.register;
    step.billed
}

// A customer's total in fen, or 19.
pub fn owed(register: &Register, customer: u64) -> Result<Fen, Refusal>
    ensures { owed_answer result ≡ owed_answer (owed_of register.now customer) }
{
    let whole = *register;
    owed_by(whole, customer)
}

// A customer's total in fen, handed out: the customer's entries go, and the others move together in their order. Places from the
// new count up to the old one become zeros, those from there on stay. A customer without entries is handed 0, and nothing
// changes. Refused with 19, the register unchanged.
pub fn close(register: &mut Register, customer: u64) -> Result<Fen, Refusal>
    ensures value { owed_answer result ≡ owed_answer (owed_of register.old customer) }
    ensures register_after { register.new ≡ closed_of register.old customer }
{
    let whole = *register;
    let step = close_for(whole, customer);
    *register = step.register;
    step.owed
}
