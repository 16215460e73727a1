// The board by value: what grid.rs and board.rs build, change and read point by point, with every refusal. The lists that are read off a
// board are in `lists`, copies of its lines in `lines`.
#![tactic(auto)]

mod board;
mod count;

pub use board::Board;
pub use count::refusal_on;
