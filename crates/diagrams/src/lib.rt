// Saved diagrams converted to stones text, which the live entry reads: document 02, No. 13.
#![tactic(auto)]

mod convert;
mod stones;

pub use convert::convert_diagram;
pub use stones::write_stones_of;
