// The four kinds. Each is a type that owns its numbers and its tables of entries, by the trait `RatingKind`; what is done with
// them is written once, for any such type.
//
// An entry is what a band's value is counted from, so that a better band has a greater level and both signs are one theory:
// for airborne a level is the value and an entry (24 dB less K), for impact an entry less the value (168 dB and K). A deficit
// at position p is then 10 p less the level, and position p is p - 24 dB for airborne, 168 - p dB for impact.
//
// The proofs unfold what the tables are computed from.
#![tactic(auto, unfolding(crate::specs::Numbers::entries_of, crate::specs::Numbers::first_of, crate::specs::Numbers::second_of, crate::specs::Numbers::numbers_of, crate::specs::Kinds::reference_of, crate::specs::Kinds::references_of, crate::specs::Kinds::C, crate::specs::Kinds::spectra_c, crate::specs::Kinds::Ctr, crate::specs::Kinds::spectra_ctr, laws::specs::Lists::listed))]

ghost use Rattle.std.specs.Prelude.{Bool, refl, ◌≡◌, ℕ, ◌+◌, ◌*◌, ◌/◌, ◌%◌, ◌^◌, ◌<◌};
ghost use Rattle.kinds.specs.declared.kinds.Kind.{Kind};
ghost use Rattle.laws.specs.Tests.{any_to, bit};
ghost use Rattle.kinds.specs.Kinds.{airborne, bands_of, limit_of, kind_of, kind_number};
ghost use Rattle.kinds.specs.Numbers.{start_add, rating_at, entries_of, first_of, second_of, numbers_of};

use curve::Position;

// The four, with their numbers.
#[derive(Clone, Copy)]
pub enum Kind {
    A3 = 0,
    A1 = 1,
    I3 = 2,
    I1 = 3,
}

// What the shared rating asks of a kind.
#[derive(Clone, Copy)]
pub struct Numbers {
    pub bands: usize,
    pub limit: u32,
    pub origin: Position,
    pub airborne: bool,
    pub entries: [u32; 16],
}

// What a kind owns. `kind` says which of the four it is; before each constant stands its value in proofs.
pub trait RatingKind {
    ghost kind: { Kind };

    // How many bands it has.
    ghost BANDS: { ℕ };

    const BANDS: usize;

    // The sum limit, in tenths.
    ghost LIMIT: { ℕ };

    const LIMIT: u32;

    // What is added to the sum of the levels, so that over ten for each band it is the start of the curve method.
    ghost START: { ℕ };

    const START: u32;

    // The position that rates 0 dB.
    ghost ORIGIN: { ℕ };

    const ORIGIN: u32;

    // Airborne, or impact.
    ghost AIRBORNE: { Bool };

    const AIRBORNE: bool;

    // The entries of the reference curve.
    fn reference() -> [u32; 16]
        ensures { result ≡ entries_of kind };

    // Those of the spectrum of the first term: C, or that of the impact term, in which no band weighs more than another.
    fn first() -> [u32; 16]
        ensures { result ≡ first_of kind };

    // Those of the spectrum of the second term, Ctr; an impact kind has no such term.
    fn second() -> [u32; 16]
        ensures { result ≡ second_of kind };

    // The constants are those of the definitions.
    ghost owned: { (BANDS ≡ bands_of kind)
        × (LIMIT ≡ limit_of kind)
        × (START ≡ start_add kind)
        × (ORIGIN ≡ rating_at kind)
        × (AIRBORNE ≡ airborne kind) };
}

// Airborne thirds.
#[derive(Clone, Copy)]
pub struct A3Kind;

impl RatingKind for A3Kind {
    ghost kind = { Kind.A3 };

    ghost BANDS = { bands_of Kind.A3 };

    const BANDS: usize = 16;

    ghost LIMIT = { limit_of Kind.A3 };

    const LIMIT: u32 = 320;

    ghost START = { start_add Kind.A3 };

    const START: u32 = 519;

    ghost ORIGIN = { rating_at Kind.A3 };

    const ORIGIN: u32 = 24;

    ghost AIRBORNE = { airborne Kind.A3 };

    const AIRBORNE: bool = true;

    fn reference() -> [u32; 16] {
        [
            430, 400, 370, 340, 310, 280, 250, 240, 230, 220, 210, 200, 200, 200, 200, 200,
        ]
    }

    fn first() -> [u32; 16] {
        [
            490, 460, 430, 410, 390, 370, 350, 330, 320, 310, 300, 290, 290, 290, 290, 290,
        ]
    }

    fn second() -> [u32; 16] {
        [
            400, 400, 380, 360, 350, 340, 330, 320, 310, 290, 280, 290, 300, 310, 330, 350,
        ]
    }

    ghost owned = { (refl, refl, refl, refl, refl) };
}

// Airborne octaves.
#[derive(Clone, Copy)]
pub struct A1Kind;

impl RatingKind for A1Kind {
    ghost kind = { Kind.A1 };

    ghost BANDS = { bands_of Kind.A1 };

    const BANDS: usize = 5;

    ghost LIMIT = { limit_of Kind.A1 };

    const LIMIT: u32 = 100;

    ghost START = { start_add Kind.A1 };

    const START: u32 = 139;

    ghost ORIGIN = { rating_at Kind.A1 };

    const ORIGIN: u32 = 24;

    ghost AIRBORNE = { airborne Kind.A1 };

    const AIRBORNE: bool = true;

    fn reference() -> [u32; 16] {
        [
            400, 310, 240, 210, 200, 240, 240, 240, 240, 240, 240, 240, 240, 240, 240, 240,
        ]
    }

    fn first() -> [u32; 16] {
        [
            410, 340, 280, 250, 240, 200, 200, 200, 200, 200, 200, 200, 200, 200, 200, 200,
        ]
    }

    fn second() -> [u32; 16] {
        [
            340, 300, 270, 240, 260, 200, 200, 200, 200, 200, 200, 200, 200, 200, 200, 200,
        ]
    }

    ghost owned = { (refl, refl, refl, refl, refl) };
}

// Impact thirds.
#[derive(Clone, Copy)]
pub struct I3Kind;

impl RatingKind for I3Kind {
    ghost kind = { Kind.I3 };

    ghost BANDS = { bands_of Kind.I3 };

    const BANDS: usize = 16;

    ghost LIMIT = { limit_of Kind.I3 };

    const LIMIT: u32 = 320;

    ghost START = { start_add Kind.I3 };

    const START: u32 = 1489;

    ghost ORIGIN = { rating_at Kind.I3 };

    const ORIGIN: u32 = 168;

    ghost AIRBORNE = { airborne Kind.I3 };

    const AIRBORNE: bool = false;

    fn reference() -> [u32; 16] {
        [
            1700, 1700, 1700, 1700, 1700, 1700, 1690, 1680, 1670, 1660, 1650, 1620, 1590, 1560,
            1530, 1500,
        ]
    }

    fn first() -> [u32; 16] {
        [1500; 16]
    }

    fn second() -> [u32; 16] {
        [1500; 16]
    }

    ghost owned = { (refl, refl, refl, refl, refl) };
}

// Impact octaves.
#[derive(Clone, Copy)]
pub struct I1Kind;

impl RatingKind for I1Kind {
    ghost kind = { Kind.I1 };

    ghost BANDS = { bands_of Kind.I1 };

    const BANDS: usize = 5;

    ghost LIMIT = { limit_of Kind.I1 };

    const LIMIT: u32 = 100;

    ghost START = { start_add Kind.I1 };

    const START: u32 = 449;

    ghost ORIGIN = { rating_at Kind.I1 };

    const ORIGIN: u32 = 163;

    ghost AIRBORNE = { airborne Kind.I1 };

    const AIRBORNE: bool = false;

    fn reference() -> [u32; 16] {
        [
            1700, 1700, 1680, 1650, 1520, 1680, 1680, 1680, 1680, 1680, 1680, 1680, 1680, 1680,
            1680, 1680,
        ]
    }

    fn first() -> [u32; 16] {
        [1500; 16]
    }

    fn second() -> [u32; 16] {
        [1500; 16]
    }

    ghost owned = { (refl, refl, refl, refl, refl) };
}

// The kind of a number.
pub fn kind_of(number: u32) -> Option<Kind>
    ensures { result ≡ kind_of number }
{
    match number {
        0 => Some(Kind::A3),
        1 => Some(Kind::A1),
        2 => Some(Kind::I3),
        3 => Some(Kind::I1),
        _ => None,
    }
}

// The number of a kind.
pub fn kind_number(kind: Kind) -> u8
    ensures { result ≡ kind_number kind }
{
    kind as u8
}

// The number of bands of a kind.
pub fn bands_of(kind: Kind) -> usize
    ensures { result ≡ bands_of kind }
{
    match kind {
        Kind::A3 => A3Kind::BANDS,
        Kind::A1 => A1Kind::BANDS,
        Kind::I3 => I3Kind::BANDS,
        Kind::I1 => I1Kind::BANDS,
    }
}

// Where the curve method starts: the sum of the levels and what the kind adds, over ten for each band.
fn start_by<K: RatingKind>(sum: u32) -> Position
    requires { sum < 1000000 }
    ensures { result.0 ≡ (sum + start_add K.kind) / (10 * bands_of K.kind) }
{
    Position((sum + K::START) / (10 * K::BANDS as u32))
}

pub fn start_of(kind: Kind, sum: u32) -> Position
    requires { sum < 1000000 }
    ensures { result.0 ≡ (sum + start_add kind) / (10 * bands_of kind) }
{
    match kind {
        Kind::A3 => start_by::<A3Kind>(sum),
        Kind::A1 => start_by::<A1Kind>(sum),
        Kind::I3 => start_by::<I3Kind>(sum),
        Kind::I1 => start_by::<I1Kind>(sum),
    }
}

// The numbers of a kind, fetched once for a rating.
fn numbers_by<K: RatingKind>() -> Numbers
    ensures { result ≡ numbers_of K.kind }
{
    Numbers {
        bands: K::BANDS,
        limit: K::LIMIT,
        origin: Position(K::ORIGIN),
        airborne: K::AIRBORNE,
        entries: K::reference(),
    }
}

pub fn numbers_of(kind: Kind) -> Numbers
    ensures { result ≡ numbers_of kind }
{
    match kind {
        Kind::A3 => numbers_by::<A3Kind>(),
        Kind::A1 => numbers_by::<A1Kind>(),
        Kind::I3 => numbers_by::<I3Kind>(),
        Kind::I1 => numbers_by::<I1Kind>(),
    }
}

// The marks of a kind's bands.
pub fn marks_of(kind: Kind, marks: u16) -> u16
    ensures { result ≡ marks % 2 ^ bands_of kind }
{
    (u32::from(marks) % (1 << bands_of(kind))) as u16
}

// Whether one of them is set.
pub fn marked(kind: Kind, marks: u16) -> bool
    ensures { result ≡ any_to (bit marks) (bands_of kind) }
{
    marks_of(kind, marks) != 0
}

// How many sets of one to three of its bands a kind has: n (n n + 5) / 6 of n bands.
pub fn sets_of(kind: Kind) -> usize
    ensures { result ≡ bands_of kind * (bands_of kind * bands_of kind + 5) / 6 }
{
    let n = bands_of(kind);
    n * (n * n + 5) / 6
}
