// Whole games refereed: a list of moves read one by one on a board that is changed in place, up to the first faulty move, and one report.
#![tactic(auto)]

mod game;
mod report;
mod turn;

pub use game::referee_game;
pub use report::{Fault, GameReport, Reason};
