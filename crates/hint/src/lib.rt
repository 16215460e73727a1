// Hints (document 02, No. 11): a small check that accepts only a sure win by fours, and the planner that proposes one. Both walk a line of
// attacks on stored lines, in place: the check goes forward only, the planner takes off again what it has put.
#![tactic(auto)]

mod attack;
mod check;
mod eyes;
mod fives;
mod front;
mod look;
mod plan;
mod tries;

pub use front::{win_check_of, win_plan_of};
