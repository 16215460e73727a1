// The one eye of a black Three.
ghost use Rattle.std.specs.Prelude.{◌≡◌, T};
ghost use Rattle.rules.specs.Grid.{rows_through};
ghost use Rattle.rules.specs.Forbidden.{gap_from, eye_of};
ghost use Rattle.rules.specs.declared.Player.TheVariants.{Black};
ghost use Rattle.rules.specs.declared.RowKind.TheVariants.{Three};
ghost use Rattle.second.specs.Walk.{own_along};

use super::line::point_along;
use super::window::{Start, has_stone};
use rules::{Code, Player, Way};

// The point of the eye of Black's Three that starts at cell j. Three of its four cells hold a stone: the eye is the one that does not.
pub(crate) fn eye_of(board: &[u8; 225], d: Way, code: Code, j: Start) -> Code
    requires { T (rows_through Black Three board.now code d j) }
    ensures { result ≡ eye_of board.now code d j }
{
    point_along(d, code, first_gap(board, d, code, j))
}

// The first of the cells j, j+1 and j+2 that has no black stone, else j+3.
fn first_gap(board: &[u8; 225], d: Way, code: Code, j: Start) -> u8
    ensures { result ≡ gap_from (own_along Black board.now d code) j }
{
    let j = j.get();
    for k in 0..3u8 {
        if !has_stone(board, d, code, Player::Black, j + k) {
            return j + k;
        }
    }
    j + 3
}
