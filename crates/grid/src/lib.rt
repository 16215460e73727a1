// The stored lines of grid.rs: 72 lines in 144 masks, lent by their caller. Put and remove, the cells and back, soundness, and the masks
// and the starts of rows through a point. Every function takes any masks; what it says of a board is said where they are sound (proofs/).
#![tactic(auto)]

mod shown;
mod starts;
mod store;
mod through;

pub use shown::{cell_on, cells_on, is_sound_on, lines_by, lines_of, lines_refusal};
pub use starts::{row_starts_by, row_starts_on, starts_at};
pub use store::{add_by, lift_by, mark_by, mask_on, put_on, remove_on};
pub use through::{Stones, masks_by, stones_by};
