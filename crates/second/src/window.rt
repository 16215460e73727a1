// Section 4: windows on the line through a point, cell by cell. j is the cell where the window starts. The quoted sentences are document
// 01's.
ghost use Rattle.std.specs.Prelude.{◌≡◌, ◌<◌};
ghost use Rattle.rules.specs.Numbers.{is_black};
ghost use Rattle.rules.specs.Line.{inside, free, count, beside, dead, scores, holds};
ghost use Rattle.second.specs.Walk.{size_along, own_along, other_along};

use super::line::{point_along, size_along};
use rules::{Below, Code, Player, Way};

// The cell where a window starts, or where one might: no line has more than 15.
pub(crate) type Start = Below<16>;

// Whether cell i of the line holds a stone of the player's. Past the edge of the board there is none.
pub(crate) fn has_stone(board: &[u8; 225], d: Way, code: Code, player: Player, i: u8) -> bool
    ensures { result ≡ own_along player board.now d code i }
{
    i < size_along(d, code) && board[point_along(d, code, i).get() as usize] == player.number()
}

// "A window at j is cells j to j+4, with j+5 at most the line's size."
#[tactic(auto, unfolding(rules::specs::Line::inside))]
pub(crate) fn is_inside(d: Way, code: Code, j: Start) -> bool
    ensures { result ≡ inside (size_along d code) j }
{
    j.get() + 5 <= size_along(d, code)
}

// How many stones of the player's stand in the window at j.
pub(crate) fn stones_in(board: &[u8; 225], d: Way, code: Code, player: Player, j: Start) -> u8
    ensures { result ≡ count (own_along player board.now d code) j }
{
    let mut n = 0u8;
    for k in 0..5u8 {
        if has_stone(board, d, code, player, j.get() + k) {
            n += 1;
        }
    }
    n
}

// "It is free for a colour when it has no stone of the other."
pub(crate) fn is_free(board: &[u8; 225], d: Way, code: Code, player: Player, j: Start) -> bool
    ensures { result ≡ free (other_along player board.now d code) j }
{
    stones_in(board, d, code, player.opponent(), j) == 0
}

// Whether a stone of the player's stands at j−1 or j+5.
#[tactic(auto, unfolding(rules::specs::Line::beside))]
pub(crate) fn is_beside(board: &[u8; 225], d: Way, code: Code, player: Player, j: Start) -> bool
    ensures { result ≡ beside (own_along player board.now d code) j }
{
    let j = j.get();
    (j > 0 && has_stone(board, d, code, player, j - 1)) || has_stone(board, d, code, player, j + 5)
}

// "It is dead if not free, and for Black also if a black stone stands at j−1 or j+5."
#[tactic(auto, unfolding(rules::specs::Line::dead))]
pub(crate) fn is_dead(board: &[u8; 225], d: Way, code: Code, player: Player, j: Start) -> bool
    ensures { result ≡ dead (is_black player) (own_along player board.now d code)
        (other_along player board.now d code) j }
{
    !is_free(board, d, code, player, j)
        || (player.is_black() && is_beside(board, d, code, player, j))
}

// "Its score is its count of own stones, 0 to 5, and −1 if dead." Whether the score of the window at j is n.
#[tactic(auto, unfolding(rules::specs::Line::scores))]
pub(crate) fn scores(board: &[u8; 225], d: Way, code: Code, player: Player, n: u8, j: Start) -> bool
    ensures { result ≡ scores (is_black player) (size_along d code) (own_along player board.now d code)
        (other_along player board.now d code) n j }
{
    is_inside(d, code, j)
        && !is_dead(board, d, code, player, j)
        && stones_in(board, d, code, player, j) == n
}

// Whether the window at j is free and holds n, "counted without the dead rule".
#[tactic(auto, unfolding(rules::specs::Line::holds))]
pub(crate) fn holds(board: &[u8; 225], d: Way, code: Code, player: Player, n: u8, j: Start) -> bool
    ensures { result ≡ holds (size_along d code) (own_along player board.now d code)
        (other_along player board.now d code) n j }
{
    is_inside(d, code, j)
        && is_free(board, d, code, player, j)
        && stones_in(board, d, code, player, j) == n
}
