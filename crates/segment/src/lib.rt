// Segments and rows by value: what segment.rs and row.rs answer about five cells and the two beside them, with the refusals.
#![tactic(auto, unfolding(rules::specs::Answers::answer, rules::specs::Refusals::first, rules::specs::Refusals::unless))]

mod row;
mod segment;

pub use row::{Row, matches};
pub use segment::{Segment, mine};
