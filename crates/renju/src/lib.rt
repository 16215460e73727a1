// The host interface: the referee for callers in Rust and C, over numbers and byte slices. Each function answers one u32: the refusal
// in the high half (0: none), the answer in the low. `renju_c` exports each of them to those callers.
#![tactic(auto)]

mod answer;
mod canonical_form;
mod changes;
mod counted;
mod depths;
mod feeds;
mod games;
mod hints;
mod listed;
mod masked;
mod mended;
mod saved;
mod second_referee;
mod sgf_texts;
mod tagged;
mod texts;
mod verdicts;
mod version;
mod views;

pub use canonical_form::renju_canonical;
pub use changes::{renju_put, renju_remove, renju_turn, renju_turn_point};
pub use counted::renju_counts;
pub use depths::renju_depth;
pub use feeds::{renju_feed_missing, renju_feed_take};
pub use games::renju_game;
pub use hints::{renju_win_check, renju_win_plan};
pub use listed::{
    renju_empty_points, renju_forbidden_points, renju_four_eyes_on, renju_neighbors, renju_rows,
    renju_rows_on, renju_stones,
};
pub use masked::{renju_line_eyes, renju_line_starts, renju_line_starts_on};
pub use mended::renju_mend;
pub use saved::{renju_convert, renju_read_diagram};
pub use second_referee::{
    renju_second_forbidden, renju_second_forbidden_points, renju_second_forbidden_strict,
    renju_second_four_eyes_on, renju_second_rows, renju_second_rows_on,
};
pub use sgf_texts::{renju_from_sgf, renju_to_sgf};
pub use tagged::{renju_from_tagged, renju_tagged_view, renju_to_tagged};
pub use texts::{renju_read, renju_read_point, renju_to_pretty_string, renju_to_string};
pub use verdicts::{renju_forbidden, renju_forbidden_strict};
pub use version::renju_interface_2;
pub use views::{renju_view_back, renju_view_then};
