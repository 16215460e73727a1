// Texts read, from bytes: points, comma lists, lines, cells and boards. `FromStr` of point.rs, line.rs and grid.rs, with the refusals.
#![tactic(auto)]

mod boards;
mod bytes;
mod diagram;
mod forms;
mod line_text;
mod point_text;
mod points;

pub use boards::{read_board, read_diagram};
pub use bytes::{has, is_space, leading_space, text_refusal, trimmed};
pub use diagram::read_diagram_cells;
pub use forms::read_cells;
pub use line_text::read_line;
pub use point_text::read_point;
pub use points::{Leading, Slip, read_leading, read_points};
