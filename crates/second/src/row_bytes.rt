// A row in a list: "four bytes: key, start, stones mask, eyes mask (bit k for cell j + k)".
ghost use Rattle.std.specs.Prelude.{◌≡◌, cond, ◌≤◌};
ghost use Rattle.rules.specs.Line.{stones_mask, eyes_mask};
ghost use Rattle.rules.specs.Point.{line_no};
ghost use Rattle.rules.specs.Grid.{row_bytes};
ghost use Rattle.second.specs.Walk.{size_along, own_along, other_along};

use super::key::key_of;
use super::row::is_eye;
use super::window::{Start, has_stone};
use rules::{Code, Player, RowKind, Way};

// The four bytes of the row of the kind that starts at cell j.
pub(crate) fn row_bytes(
    board: &[u8; 225],
    d: Way,
    code: Code,
    player: Player,
    kind: RowKind,
    j: Start,
) -> [u8; 4]
    ensures { result ≡ row_bytes player kind board.now d (line_no d code) j }
{
    let key = key_of(d, code);
    let stones = stones_mask(board, d, code, player, j);
    let eyes = eyes_mask(board, d, code, player, kind, j);
    [key, j.get(), stones, eyes]
}

// The stones of its window: 1 for the first cell, 2 for the second, then 4, 8 and 16.
fn stones_mask(board: &[u8; 225], d: Way, code: Code, player: Player, j: Start) -> u8
    ensures { result ≡ stones_mask (own_along player board.now d code) j }
{
    worth(has_stone(board, d, code, player, j.get()), 1)
        + worth(has_stone(board, d, code, player, j.get() + 1), 2)
        + worth(has_stone(board, d, code, player, j.get() + 2), 4)
        + worth(has_stone(board, d, code, player, j.get() + 3), 8)
        + worth(has_stone(board, d, code, player, j.get() + 4), 16)
}

// Its eyes, likewise.
fn eyes_mask(board: &[u8; 225], d: Way, code: Code, player: Player, kind: RowKind, j: Start) -> u8
    ensures { result ≡ eyes_mask (size_along d code) (own_along player board.now d code)
        (other_along player board.now d code) kind j }
{
    worth(is_eye(board, d, code, player, kind, j, j.get()), 1)
        + worth(is_eye(board, d, code, player, kind, j, j.get() + 1), 2)
        + worth(is_eye(board, d, code, player, kind, j, j.get() + 2), 4)
        + worth(is_eye(board, d, code, player, kind, j, j.get() + 3), 8)
        + worth(is_eye(board, d, code, player, kind, j, j.get() + 4), 16)
}

// The value where the test passed, else 0.
fn worth(passed: bool, value: u8) -> u8
    ensures { (result ≡ cond «passed» value 0) × (result ≤ value) }
{
    if passed { value } else { 0 }
}
