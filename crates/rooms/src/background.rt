// Correcting a level for the background, in the field and in the laboratory.
ghost use Rattle.std.specs.Prelude.{◌≡◌, ◌≤◌, ◌<◌, true, false, pos, ◌-ℤ◌};
ghost use Rattle.laws.specs.Parts.{P};
ghost use Rattle.intake.specs.Taken.{taken};
ghost use Rattle.quantity.specs.Quantities.{in_range};
ghost use Rattle.rooms.specs.Background.{above, lessened, field_level, field_mark, field_of, laboratory_level, laboratory_of};

use energy::background as amount;
use intake::Taken;
use quantity::{Refusal, Tenths};

// d: how far the total is above the background, in tenths.
#[tactic(auto, using(crate::proofs::Rules::apart_fits, crate::proofs::Rules::apart_held))]
fn apart(total: Tenths, background: Tenths) -> i32
    requires ranged { (in_range total.0 ≡ true) × (in_range background.0 ≡ true) }
    ensures { result ≡ above total.0 background.0 }
{
    total.0 - background.0
}

// A level with so many tenths taken off.
#[tactic(auto, using(crate::proofs::Rules::lowered_fits, crate::proofs::Rules::lowered_held))]
fn lowered(level: Tenths, tenths: u32) -> Tenths
    requires ranged { (in_range level.0 ≡ true) × (tenths < 16) }
    ensures { result.0 ≡ level.0 -ℤ pos tenths }
{
    Tenths(level.0 - tenths as i32)
}

// The level at a difference d of at least 6.0 dB: below `clear` c(d) is taken off, from there on there is no change.
#[tactic(auto, using(crate::proofs::Rules::c_small))]
fn cleared(total: Tenths, d: i32, clear: i32) -> Taken
    requires total_ranged { in_range total.0 ≡ true }
    requires apart { (60 ≤ P d) × (P clear ≤ 150) }
    ensures { result ≡ taken (lessened total.0 d clear) false }
{
    let value = if d < clear {
        lowered(total, amount(d as u32))
    } else {
        total
    };
    Taken {
        value,
        limit: false,
    }
}

// The field rule on values in range: the corrected level, and whether it is a limit.
#[tactic(auto, unfolding(crate::specs::Background::field_level, crate::specs::Background::field_mark))]
pub fn in_field(total: Tenths, background: Tenths) -> Taken
    requires total_ranged { in_range total.0 ≡ true }
    requires background_ranged { in_range background.0 ≡ true }
    ensures { (result.value.0 ≡ field_level total.0 background.0) × (result.limit ≡ field_mark total.0 background.0) }
{
    let d = apart(total, background);
    if d <= 60 {
        return Taken {
            value: lowered(total, 13),
            limit: true,
        };
    }
    cleared(total, d, 100)
}

// The field rule: 4 for the total, then 4 for the background, else the corrected level with its mark.
#[tactic(auto, unfolding(crate::specs::Background::field_of))]
pub fn correct_field(total: Tenths, background: Tenths) -> Result<Taken, Refusal>
    ensures { result ≡ field_of total.0 background.0 }
{
    if !total.in_range() || !background.in_range() {
        return Err(Refusal::BandRange);
    }
    Ok(in_field(total, background))
}

// The laboratory rule on values in range.
#[tactic(auto, unfolding(crate::specs::Background::laboratory_level))]
fn in_laboratory(total: Tenths, background: Tenths) -> Result<Taken, Refusal>
    requires total_ranged { in_range total.0 ≡ true }
    requires background_ranged { in_range background.0 ≡ true }
    ensures { result ≡ laboratory_level total.0 background.0 }
{
    let d = apart(total, background);
    if d < 60 {
        return Err(Refusal::BackgroundTooNear);
    }
    Ok(cleared(total, d, 150))
}

// The laboratory rule: 4 for the total, then 4 for the background, then 5, else the corrected level.
#[tactic(auto, unfolding(crate::specs::Background::laboratory_of))]
pub fn correct_laboratory(total: Tenths, background: Tenths) -> Result<Taken, Refusal>
    ensures { result ≡ laboratory_of total.0 background.0 }
{
    if !total.in_range() || !background.in_range() {
        return Err(Refusal::BandRange);
    }
    in_laboratory(total, background)
}
