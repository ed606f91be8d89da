// The register, and the one that is opened empty.
ghost use Rattle.std.specs.Prelude.{◌≡◌};
ghost use Rattle.register.specs.Registers.{opened};

use entry::{Entry, no_entry};

// The first `count` entries are in use; what lies past them never matters.
#[repr(C)]
#[derive(Clone, Copy)]
pub struct Register {
    pub entries: [Entry; 512],
    pub count: usize,
}

// A register without entries: all zeros.
#[tactic(auto, unfolding(crate::specs::Registers::opened))]
pub fn open_register() -> Register
    ensures { result ≡ opened }
{
    let nothing = no_entry();
    Register {
        entries: [nothing; 512],
        count: 0,
    }
}
