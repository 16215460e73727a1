// "More than one": how many rows go through a point, counted line by line. The quoted sentences are document 01's.
ghost use Rattle.std.specs.Prelude.{◌≡◌, ◌<◌};
ghost use Rattle.rules.specs.Grid.{rows_through};
ghost use Rattle.rules.specs.declared.Player.TheVariants.{Black};
ghost use Rattle.second.specs.Count.{rows_along, row_count};

use super::line::way;
use super::row::is_through;
use super::window::Start;
use rules::{Code, Direction, Player, RowKind, Way};

// Black's rows of the kind through the point, counted so that one or more is some row, and two or more is more than one. ""More than one"
// means starts on two lines, or on one line a set not contained in {j, j+1}."
#[tactic(auto, unfolding(crate::specs::Count::row_count))]
pub(crate) fn count_rows(board: &[u8; 225], code: Code, kind: RowKind) -> u8
    ensures { result ≡ row_count (rows_through Black kind board.now code) }
{
    count_along(board, way(Direction::Vertical), code, kind)
        + count_along(board, way(Direction::Horizontal), code, kind)
        + count_along(board, way(Direction::Ascending), code, kind)
        + count_along(board, way(Direction::Descending), code, kind)
}

// Those on one line: starts j and j+1 are one row, and starts further apart are two. No more are looked for. (A line has at most 15 cells.)
fn count_along(board: &[u8; 225], d: Way, code: Code, kind: RowKind) -> u8
    ensures { (result ≡ rows_along (rows_through Black kind board.now code d)) × (result < 3) }
{
    let mut first = None;
    for j in 0..16u8 {
        if is_through(board, d, code, Player::Black, kind, Start::new(j).unwrap()) {
            match first {
                None => first = Some(j),
                Some(i) => {
                    if j - i >= 2 {
                        return 2;
                    }
                }
            }
        }
    }
    if first.is_some() { 1 } else { 0 }
}
