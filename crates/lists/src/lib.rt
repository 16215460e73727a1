// The lists that are read off a board into a lent buffer, with a count: stones, empty points, neighbours, rows and their points, four
// eyes. Each is collected whole, then written out or refused.
#![tactic(auto)]

mod codes;
mod front;
mod refusal;
mod row_bytes;

pub use front::{empty_points, four_eyes_on, neighbors, row_points, rows, rows_on, stones};
