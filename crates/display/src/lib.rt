// Points, lines, segments, cells and boards as text: what `Display` and `to_pretty_string` write, in a lent buffer, with its length. A text
// is laid out whole, then handed out or refused; that of a list of points may be of any length, so it is measured first, then written.
#![tactic(auto)]

mod diagram;
mod layout;
mod line_text;
mod number;
mod numbered;
mod points;
mod segment_text;

pub use diagram::{write_diagram, write_diagram_of};
pub use line_text::write_line;
pub use number::number_label;
pub use numbered::{write_numbered, write_numbered_of};
pub use points::{point_label, write_point, write_points};
pub use segment_text::write_segment;
