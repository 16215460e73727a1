// The referee of forbidden.rs: a cycle of calls that asks on lent lines in place, and gives them back as they were. What needs no nested
// question is seen by `near` at one point, and by `sweep` at all points at once.
#![tactic(auto)]

mod cycle;
mod eye;
mod front;
mod known;
mod list;
mod on_lines;
mod rows;
mod ruling;
mod single;
mod thin;

pub use eye::{Three, eye_on};
pub use front::{
    forbidden, forbidden_points, forbidden_points_of, forbidden_strict, forbidden_strict_of,
    is_double_three,
};
pub use rows::rows_on;
pub use ruling::{Ruling, ruling_of};
pub use thin::{forbidden_strict_in, is_double_three_in};
