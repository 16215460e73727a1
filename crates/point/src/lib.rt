// Points, the lines through them and the keys of the stored lines: point.rs, and the addresses of grid.rs. A direction is a number, 0 to 3,
// and a point a code, 0 to 224. The fronts (`Point`, `Index`, `line_key`, `line_from_key`, `turn_point`, `view_then`, `view_back`) refuse
// every other number. The rest are inner functions, for crates above that have tested their numbers: total, and each says what it gives for a
// number that is none.
#![tactic(auto)]

mod index;
mod key;
mod lines;
mod place;
mod table;
mod view;

pub use index::{Index, Point, code_refusal, direction_refusal};
pub use key::{key_direction, key_no, key_refusal, key_size, line_from_key, line_key};
pub use lines::{cell_no, line_no, line_size, point_at, step_in};
pub use place::{Place, address, address_by};
pub use table::{Table, addresses};
pub use view::{turn_point, turned, undone, view_back, view_refusal, view_then};
