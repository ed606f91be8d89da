// Bands: one field, and all of a line.
ghost use Rattle.std.specs.Prelude.{◌≡◌, ◌+◌, ◌≤◌, ◌<◌, length};
ghost use Rattle.request.specs.Texts.{Band};
ghost use Rattle.request.specs.Reading.{figure_at, first_at, second_at, third_at, tenth_by, tenth_at, signed_by, level_at, band_at, bands_at, Found};
ghost use Rattle.request.specs.Gathering.{field_of, weight_by, Small, Short, GatheredAt};

use crate::bytes::is_digit;
use quantity::signed::less;
use quantity::{Refusal, Tenths, byte};

// Tenths without a sign, and the position after them.
#[derive(Clone, Copy)]
pub struct Figure {
    pub tenths: u32,
    pub next: usize,
}

// A band: the position after it, its value, whether it is a limit value, and the refusal that it gives, if any.
#[derive(Clone, Copy)]
pub struct Field {
    pub next: usize,
    pub value: Tenths,
    pub limit: bool,
    pub fault: Option<Refusal>,
}

// The digit after the point: the figure, up to `next`, if it is one.
#[tactic(auto, using(crate::proofs::Leaves::digits))]
fn tenth_of(b: u8, whole: u32, next: usize) -> Option<Figure>
    requires { whole < 1000 }
    ensures { result ≡ tenth_by b whole next }
{
    if !is_digit(b) {
        return None;
    }
    Some(Figure {
        tenths: 10 * whole + u32::from(b - b'0'),
        next,
    })
}

#[tactic(auto, unfolding(crate::specs::Reading::tenth_at))]
fn tenth_at(s: &[u8], at: usize, whole: u32) -> Option<Figure>
    requires { (whole < 1000) × (at ≤ length s.now) }
    ensures { result ≡ tenth_at s.now at whole }
{
    tenth_of(byte(s, at), whole, at + 1)
}

// After three digits of the whole part: a point.
#[tactic(auto, unfolding(crate::specs::Reading::third_at))]
fn third_at(s: &[u8], at: usize, whole: u32) -> Option<Figure>
    requires { whole < 1000 }
    ensures { result ≡ third_at s.now at whole }
{
    match byte(s, at) {
        b'.' => tenth_at(s, at + 1, whole),
        _ => None,
    }
}

// After two digits: a point, or a third digit.
#[tactic(auto, using(crate::proofs::Leaves::digits), unfolding(crate::specs::Reading::second_at))]
fn second_at(s: &[u8], at: usize, whole: u32) -> Option<Figure>
    requires { whole < 100 }
    ensures { result ≡ second_at s.now at whole }
{
    match byte(s, at) {
        b'.' => tenth_at(s, at + 1, whole),
        b @ b'0'..=b'9' => third_at(s, at + 1, 10 * whole + u32::from(b - b'0')),
        _ => None,
    }
}

// After one digit: a point, or a second digit if the first is no 0.
#[tactic(auto, using(crate::proofs::Leaves::digits), unfolding(crate::specs::Reading::first_at))]
fn first_at(s: &[u8], at: usize, whole: u32) -> Option<Figure>
    requires { whole < 10 }
    ensures { result ≡ first_at s.now at whole }
{
    match byte(s, at) {
        b'.' => tenth_at(s, at + 1, whole),
        b @ b'0'..=b'9' if whole > 0 => second_at(s, at + 1, 10 * whole + u32::from(b - b'0')),
        _ => None,
    }
}

// 1 to 3 digits without a needless leading zero, a point, one digit.
#[tactic(auto, using(crate::proofs::Leaves::digits), unfolding(crate::specs::Reading::figure_at))]
fn figure_at(s: &[u8], at: usize) -> Option<Figure>
    ensures { result ≡ figure_at s.now at }
{
    match byte(s, at) {
        b @ b'0'..=b'9' => first_at(s, at + 1, u32::from(b - b'0')),
        _ => None,
    }
}

#[tactic(auto, unfolding(crate::specs::Gathering::field_of))]
fn missing_field(next: usize) -> Field
    ensures { Some result ≡ field_of (Found.found Band.missing next) }
{
    Field {
        next,
        value: Tenths(0),
        limit: false,
        fault: Some(Refusal::ReadingMissing),
    }
}

#[tactic(auto, unfolding(crate::specs::Gathering::field_of))]
fn level_field(value: Tenths, limit: bool, next: usize) -> Field
    ensures { Some result ≡ field_of (Found.found (Band.level limit value.0) next) }
{
    let fault = if value.in_range() {
        None
    } else {
        Some(Refusal::BandRange)
    };
    Field {
        next,
        value,
        limit,
        fault,
    }
}

// The level that a figure is behind its sign; no level is -0.0.
#[tactic(auto, unfolding(crate::specs::Gathering::field_of))]
fn signed(figure: Option<Figure>, limit: bool, minus: bool) -> Option<Field>
    requires { Small figure }
    ensures { result ≡ field_of (signed_by limit minus figure) }
{
    let Figure { tenths, next } = figure?;
    if !minus {
        return Some(level_field(Tenths(less(tenths, 0)), limit, next));
    }
    if tenths == 0 {
        return None;
    }
    Some(level_field(Tenths(less(0, tenths)), limit, next))
}

// An optional minus and a figure.
#[tactic(auto, using(crate::proofs::Readers::figure_at_small), unfolding(crate::specs::Reading::level_at))]
fn level_at(s: &[u8], at: usize, limit: bool) -> Option<Field>
    ensures { result ≡ field_of (level_at s.now at limit) }
{
    if byte(s, at) == b'-' {
        return signed(figure_at(s, at + 1), limit, true);
    }
    signed(figure_at(s, at), limit, false)
}

// The band at a position, whatever stands there.
#[tactic(auto, using(crate::proofs::Leaves::digits), unfolding(crate::specs::Reading::band_at))]
fn any_band_at(s: &[u8], at: usize) -> Option<Field>
    ensures { result ≡ field_of (band_at s.now at) }
{
    match byte(s, at) {
        b'L' => level_at(s, at + 1, true),
        b'-' => match byte(s, at + 1) {
            b'0'..=b'9' => level_at(s, at, false),
            _ => Some(missing_field(at + 1)),
        },
        _ => level_at(s, at, false),
    }
}

// The short way, without a look at the end of the line for each byte: one or two digits, a point, one digit. Nearly every band
// of a real line is such a figure.
fn short_at(s: &[u8], at: usize) -> Option<Figure>
    requires { at + 4 ≤ length s.now }
    ensures { Short (figure_at s.now at) result }
{
    let tens = s[at];
    if !is_digit(tens) {
        return None;
    }
    let ones = s[at + 1];
    if ones == b'.' {
        return tenth_of(s[at + 2], u32::from(tens - b'0'), at + 3);
    }
    if tens == b'0' || !is_digit(ones) || s[at + 2] != b'.' {
        return None;
    }
    tenth_of(
        s[at + 3],
        10 * u32::from(tens - b'0') + u32::from(ones - b'0'),
        at + 4,
    )
}

// The band at a position: by the short way where it can be gone.
pub fn band_at(s: &[u8], at: usize) -> Option<Field>
    requires { at ≤ length s.now }
    ensures { result ≡ field_of (band_at s.now at) }
{
    if at + 4 <= s.len()
        && let Some(figure) = short_at(s, at)
    {
        return Some(Field {
            next: figure.next,
            value: Tenths(less(figure.tenths, 0)),
            limit: false,
            fault: None,
        });
    }
    any_band_at(s, at)
}

// The bands of a line: the position after its line feed, how many, the first refusal among them, if any, and, if they are at most
// 16, their values and marks.
#[derive(Clone, Copy)]
pub struct Gathered {
    pub next: usize,
    pub count: usize,
    pub fault: Option<Refusal>,
    pub marks: u16,
    pub values: [Tenths; 16],
}

fn weight_of(limit: bool, weight: u32) -> u32
    ensures { result ≡ weight_by limit weight }
{
    if limit { weight } else { 0 }
}

// All bands from the first tab on, up to the line feed; none where they are broken.
pub fn bands_at(s: &[u8], start: usize) -> Option<Gathered>
    ensures { GatheredAt (bands_at s.now start) result }
{
    let mut values = [Tenths(0); 16];
    let mut marks = 0u32;
    let mut weight = 1u32;
    let mut count = 0usize;
    let mut fault = None;
    let mut at = start;
    while byte(s, at) == b'\t' {
        let band = band_at(s, at + 1)?;
        // on the rare path only: the common turn does not touch the refusal that stands
        if band.fault.is_some() {
            fault = fault.or(band.fault);
        }
        if count < 16 {
            values[count] = band.value;
            marks += weight_of(band.limit, weight);
            weight += weight;
        }
        count += 1;
        at = band.next;
    }
    if byte(s, at) != b'\n' {
        return None;
    }
    Some(Gathered {
        next: at + 1,
        count,
        fault,
        marks: marks as u16,
        values,
    })
}
