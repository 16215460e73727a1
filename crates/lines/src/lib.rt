// Copies of a board's lines: `line`, `line_on` and `lines_on` of grid.rs. They stand apart from the board, so that what is built on boards
// does not wait for lines.
#![tactic(auto, unfolding(rules::specs::Answers::answer, rules::specs::Refusals::first))]

ghost use Rattle.std.specs.Prelude.{◌≡◌};
ghost use Rattle.rules.specs.Refusals.{first, line_no_refusal};
ghost use Rattle.rules.specs.Point.{stored};
ghost use Rattle.rules.specs.Answers.{answer};
ghost use Rattle.board.specs.Boards.{cells, board_refusal, refusal_at};
ghost use Rattle.lines.specs.Copies.{line_of, shown_line, stored_line, line_through, lines_through};

use board::Board;
use grid::mask_on;
use line::Line;
use point::{address, direction_refusal, key_size, line_key};
use rules::{Player, Refusal};

// Copies of the lines through a point; none for a diagonal that is not stored.
#[derive(Clone, Copy, Debug, PartialEq, Eq)]
pub struct LinesOn {
    pub vertical: Option<Line>,
    pub horizontal: Option<Line>,
    pub ascending: Option<Line>,
    pub descending: Option<Line>,
}

// A copy of the line through a point in a direction.
#[tactic(auto, unfolding(rules::specs::Answers::answer, rules::specs::Refusals::first, crate::specs::Copies::line_through))]
pub fn line_on(board: Board, code: u8, d: u8) -> Result<Option<Line>, Refusal>
    ensures { result ≡ line_through board code d }
{
    board.refusal_at(code)?;
    direction_refusal(d)?;
    let lines = board.lines;
    let a = address(d, code);
    if a.stored {
        return Ok(Some(line_of(&lines, a.key)));
    }
    Ok(None)
}

// The lines through a point in all four directions.
#[tactic(auto, unfolding(rules::specs::Answers::answer, rules::specs::Refusals::first, rules::specs::Refusals::unless, rules::specs::Refusals::direction_refusal, crate::specs::Copies::line_through, crate::specs::Copies::lines_through))]
pub fn lines_on(board: Board, code: u8) -> Result<LinesOn, Refusal>
    ensures { result ≡ answer (refusal_at board code) (lines_through board code) }
{
    Ok(LinesOn {
        vertical: line_on(board, code, 0)?,
        horizontal: line_on(board, code, 1)?,
        ascending: line_on(board, code, 2)?,
        descending: line_on(board, code, 3)?,
    })
}

// A copy of line i in a direction.
#[tactic(auto, using(crate::proofs::Copied::line_numbered), unfolding(rules::specs::Answers::answer, rules::specs::Refusals::first, crate::specs::Copies::stored_line, point::specs::Answers::stored_key))]
pub fn line(board: Board, d: u8, i: u8) -> Result<Option<Line>, Refusal>
    ensures { result ≡ stored_line (first (board_refusal board) (line_no_refusal d i)) (stored d i) (line_of (cells board) d i) }
{
    board.refusal()?;
    let lines = board.lines;
    match line_key(d, i)? {
        Some(key) => Ok(Some(line_of(&lines, key))),
        None => Ok(None),
    }
}

// The line of a key, copied.
#[tactic(auto, unfolding(crate::specs::Copies::shown_line))]
fn line_of(lines: &[u16; 144], key: u8) -> Line
    ensures { result ≡ shown_line lines.now key }
{
    Line {
        blacks: mask_on(lines, key, Player::Black),
        whites: mask_on(lines, key, Player::White),
        size: key_size(key),
    }
}
