// Sums of energies by tables of whole numbers: the scaled powers F, the steps of the thresholds H and G, the background
// correction c and the reverberation steps k. Each function is proved equal to its rule for every argument in range. The
// tables of ratings are lent, laid out for one set or for many by those who rate; those of means are lent by those who take
// means; the others are seen by the one function that reads them.
#![tactic(auto)]

mod constants;
mod corrections;
mod energies;
mod lent;
mod means;
mod steps;

pub use corrections::{background, reverberation};
pub use energies::{Energies, energy};
pub use lent::{Cell, MeanTables, RatingTables, mean_tables, tables, tables_of_many};
pub use steps::level;
