// Stored games (document 02, No. 4). The old form is one code byte a move; the new form is a record of two tagged fields, the view and the
// moves. Written, taken back, and asked for the view.
#![tactic(auto)]

mod field;
mod front;
mod record;
mod refusal;

pub use front::{from_tagged, old_to_tagged, tagged_view, to_tagged};
