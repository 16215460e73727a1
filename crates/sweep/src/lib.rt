// All points of a board at once: those where a kind may apply, so that no other point is asked about by itself. Bit x of mask y + 5 is the
// point (x, y): a shift and another of the 26 masks take all points of a row to their neighbours in a direction, and what `masks` answers
// for all windows of a line is answered here for all windows of a board. Five masks before the board and six behind it are empty: as many
// as five steps reach from the board's 15 rows and one more, which the loops go over so that they are whole vectors.
#![tactic(auto)]

mod marking;
mod points;
mod through;
mod windows;

pub use marking::{is_marked, marked_columns};
pub use points::sweep_points;
