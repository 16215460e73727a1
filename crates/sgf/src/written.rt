// The text of a game: the front, six bytes a move, and the end.
ghost use Rattle.std.specs.Prelude.{◌≡◌, ◌≤◌, length};
ghost use Rattle.sgf.specs.Games.{move_text, sgf_text};

use super::value::mover;
use lent::Kept;

// 225 moves have 14 bytes and 1,350.
pub(crate) fn game_text(moves: &[u8]) -> Kept<1364>
    requires { length moves.now ≤ 225 }
    ensures { result ≡ sgf_text moves.now }
{
    let mut text = Kept::new();
    text.keep(b"(;GM[4]SZ[15]");
    for i in 0..moves.len() {
        text.keep(&move_text(i, moves[i]));
    }
    text.keep(b")");
    text
}

// Move i.
#[tactic(auto, unfolding(crate::specs::Games::move_text, crate::specs::Games::point_value))]
fn move_text(i: usize, code: u8) -> [u8; 6]
    ensures { result ≡ move_text i code }
{
    let column = b'a' + code / 15;
    let row = b'a' + (14 - code % 15);
    [b';', mover(i), b'[', column, row, b']']
}
