// The rows through a point, on all four lines at once: four start masks for each kind, one for each direction, and what is asked of such
// masks. The masks of the four lines are joined in one word of 64 places, and each reading is one pass over it.
#![tactic(auto)]

mod eyes;
mod glance;
mod rows;
mod starts;
mod wide;
mod words;

pub use eyes::first_gap;
pub use glance::{Glance, black_glance_near, white_four_near};
pub use rows::{Rows, black_rows_near, rows_near};
pub use starts::{more_than_one, next_start, other_starts, set_start, some_row};
