// The tables of ratings and of means: cells that nobody but this crate reads.
ghost use Rattle.std.specs.Prelude.{true, false};
ghost use Rattle.energy.specs.Tabled.{Tabled, MeanTabled};

use crate::constants::{MEAN_PARTS, PARTS};

pub type Cell = u32;

// The tables of ratings, as they are lent: laid out for one set, or for many.
#[derive(Clone, Copy)]
pub struct RatingTables<'a> {
    pub(crate) cells: &'a [Cell],
    pub(crate) many: bool,
    ghost tabled: { Tabled many cells.now },
}

impl<'a> RatingTables<'a> {
    // As `tables` lays them out.
    pub fn for_one(cells: &'a [Cell]) -> RatingTables<'a>
        requires { Tabled false cells.now }
    {
        RatingTables { cells, many: false }
    }

    // As `tables_of_many` does.
    pub fn for_many(cells: &'a [Cell]) -> RatingTables<'a>
        requires { Tabled true cells.now }
    {
        RatingTables { cells, many: true }
    }
}

// The tables for means of three, as they are lent.
#[derive(Clone, Copy)]
pub struct MeanTables<'a> {
    pub(crate) cells: &'a [Cell],
    ghost tabled: { MeanTabled cells.now },
}

impl<'a> MeanTables<'a> {
    // As `mean_tables` lays them out.
    pub fn of(cells: &'a [Cell]) -> MeanTables<'a>
        requires { MeanTabled cells.now }
    {
        MeanTables { cells }
    }
}

// The tables for one set, with the first hundred numbers of F. Where an array is named, it is laid out anew.
pub fn tables() -> [Cell; 317]
    ensures { Tabled false result }
{
    PARTS
}

// The tables for means of three, laid out anew as well.
pub fn mean_tables() -> [Cell; 211]
    ensures { MeanTabled result }
{
    MEAN_PARTS
}

// The tables for many sets, to be made once and lent for each: F whole, each number a tenth of the one a hundred places before,
// and behind it what follows F in the tables for one set.
pub fn tables_of_many() -> [Cell; 1118]
    ensures { Tabled true result }
{
    let few = PARTS;
    let mut out = [0; 1118];
    out[..100].copy_from_slice(&few[..100]);
    for i in 100..901 {
        out[i] = out[i - 100] / 10;
    }
    out[901..].copy_from_slice(&few[100..]);
    out
}
