// Month end (document 02, (xi)): one customer's entries are closed.
ghost use Rattle.std.specs.Prelude.{◌≡◌, ◌≤◌, length};
ghost use Rattle.register.specs.Registers.{owed_of};
ghost use Rattle.ledger.specs.Closings.{without, closed_of};

use entry::no_entry;
use quantity::{Fen, Refusal};
use register::{Register, owed_by};

// A register and what was handed out.
#[derive(Clone, Copy)]
pub struct Closing {
    pub register: Register,
    pub owed: Result<Fen, Refusal>,
}

// A customer's entries go. Each entry leaves its place, and another customer's takes the first that is free, so that zeros
// stand wherever one went.
#[tactic(auto, using(crate::proofs::Moves::others_most), unfolding(crate::specs::Closings::others, crate::specs::Closings::moved_to, crate::specs::Closings::without))]
fn clear(register: &mut Register, customer: u64)
    requires { (register.old.count ≤ 512) × (length register.old.entries ≡ 512) }
    ensures { register.new ≡ without register.old customer }
{
    let mut free = 0;
    for i in 0..register.count {
        let e = register.entries[i];
        register.entries[i] = no_entry();
        if e.customer != customer {
            register.entries[free] = e;
            free += 1;
        }
    }
    register.count = free;
}

// A register and what was handed out, out of a reference, so that the register is copied once.
fn closing_of(register: &Register, owed: Result<Fen, Refusal>) -> Closing
    ensures { result ≡ record { register = register.now; owed = owed } }
{
    Closing {
        register: *register,
        owed,
    }
}

// One closing: the customer's total is handed out and the entries go, or 19.
#[tactic(auto, using(register::proofs::Soundness::sound_most), unfolding(crate::specs::Closings::closed_of, register::specs::Registers::owed_of))]
pub fn close_for(mut register: Register, customer: u64) -> Closing
    ensures owed { result.owed ≡ owed_of register customer }
    ensures register_after { result.register ≡ closed_of register customer }
{
    let owed = owed_by(register, customer);
    if owed.is_ok() {
        clear(&mut register, customer);
    }
    closing_of(&register, owed)
}
