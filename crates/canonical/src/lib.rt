// The canonical form of a board: of its eight turned boards the least by its cell bytes, the same for a board in every view.
#![tactic(auto)]

mod front;
mod least;
mod order;

pub use front::canonical_of;
