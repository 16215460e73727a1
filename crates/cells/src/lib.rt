// What a board is: 225 cell bytes, 0 empty, 1 black, 2 white. Tested, built from moves and stones, read, changed where they stand, turned;
// the lists that are read off them point by point; and how many stones there are. No line is built here.
#![tactic(auto)]

mod build;
mod change;
mod codes;
mod front;
mod refusal;
mod stones;
mod turn;

pub use build::{moves_cells, stones_cells};
pub use change::{put_of, remove_of, value_at};
pub use codes::points_with;
pub use front::{empty_points_of, neighbors_of, stones_of, turned_of};
pub use refusal::{cells_refusal, cells_refusal_at, codes_refusal, moves_refusal};
pub use stones::counts_of;
pub use turn::turned_cells;
