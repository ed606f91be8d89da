// Whether a call could have made an entry: its price in range, bands that rating takes, a key of the right shape.
ghost use Rattle.std.specs.Prelude.{◌≡◌};
ghost use Rattle.kinds.specs.Kinds.{kind_of};
ghost use Rattle.entry.specs.Entries.{ratable, keyed, entry_ok};

use crate::entries::{Entry, set_of};
use curve::levels::all_in_range;
use kinds::{bands_of, kind_of};
use quantity::is_key_of;

#[tactic(auto, using(crate::proofs::Oks::ratable_as))]
fn is_ratable(e: Entry) -> bool
    ensures { result ≡ ratable (kind_of e.kind) e }
{
    kind_of(u32::from(e.kind)).is_some_and(|kind| all_in_range(set_of(e, kind), bands_of(kind)))
}

fn is_keyed(e: Entry) -> bool
    ensures { result ≡ keyed e }
{
    e.length <= 32 && is_key_of(&e.key[..e.length as usize])
}

// Whether a call could have made an entry.
#[tactic(auto, unfolding(crate::specs::Entries::entry_ok))]
pub fn entry_ok(e: Entry) -> bool
    ensures { result ≡ entry_ok e }
{
    e.price.in_range() && is_ratable(e) && is_keyed(e)
}
