// The listing of a text: each forbidden point of its board with its kind, then the count; or the refusal. It is what the program `listing`
// writes.
#![tactic(auto)]

mod lines;
mod listing;

pub use listing::write_listing;
