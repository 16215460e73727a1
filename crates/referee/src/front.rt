// The front, on a board by value and on cell bytes: each question tests what it is given, in section 2's order, and asks the referee.
// Nothing that it is handed is changed.
ghost use Rattle.std.specs.Prelude.{◌≡◌};
ghost use Rattle.rules.specs.Answers.{answer, checked};
ghost use Rattle.rules.specs.Forbidden.{strict_of, plain_of, forbidden_list, double_three_at};
ghost use Rattle.lent.specs.Lists.{counted, list_out};
ghost use Rattle.board.specs.Boards.{cells, board_refusal, refusal_at};
ghost use Rattle.referee.specs.Answers.{forbidden_refusal};
ghost use Rattle.cells.specs.Cells.{Cells, cells_refusal, cells_refusal_at};

use super::list::forbidden_pairs;
use super::rows::plain_on;
use super::single::strict_of;
use super::thin::{forbidden_strict_in, is_double_three_in};
use board::Board;
use cells::{cells_refusal, cells_refusal_at};
use grid::{cell_on, cells_on};
use lent::hand_out;
use rules::{Code, Refusal, Verdict, unless};

// The plain verdict at an empty point.
#[tactic(auto, unfolding(rules::specs::Answers::answer))]
pub fn forbidden(board: Board, code: u8) -> Result<Verdict, Refusal>
    ensures { result ≡ answer (forbidden_refusal board code) (plain_of (cells board) code) }
{
    forbidden_refusal(board, code)?;
    let mut lines = board.lines;
    Ok(plain_on(&mut lines, Code::new(code).unwrap()))
}

// The strict verdict: none at an occupied point, and where the stone completes a five.
pub fn forbidden_strict(board: Board, code: u8) -> Result<Verdict, Refusal>
    ensures { result ≡ answer (refusal_at board code) (strict_of (cells board) code) }
{
    let mut b = board;
    forbidden_strict_in(&mut b, code)
}

// The same of a board given as cell bytes: once they are tested, only the four lines through the point are read, unless there may be a
// trial.
#[tactic(auto, unfolding(rules::specs::Answers::answer))]
pub fn forbidden_strict_of(cells: &[u8], code: u8) -> Result<Verdict, Refusal>
    ensures { result ≡ answer (cells_refusal_at cells.now code) (strict_of cells.now code) }
{
    cells_refusal_at(cells, code)?;
    Ok(strict_of(cells, Code::new(code).unwrap()))
}

// Whether the point is empty and a double three for Black, whatever other kind it is.
pub fn is_double_three(board: Board, code: u8) -> Result<bool, Refusal>
    ensures { result ≡ answer (refusal_at board code) (double_three_at (cells board) code) }
{
    let mut b = board;
    is_double_three_in(&mut b, code)
}

// The forbidden points, two bytes each, the kind and the code, by ascending code; and how many there are.
#[tactic(auto, unfolding(rules::specs::Answers::answer, lent::specs::Lists::list_refusal, lent::specs::Lists::list_out, lent::specs::Lists::counted, rules::specs::Refusals::first))]
pub fn forbidden_points(board: Board, out: &mut [u8]) -> Result<u16, Refusal>
    ensures { (result ≡ counted 2 (board_refusal board) out.old (forbidden_list (cells board)))
        × (out.new ≡ list_out (board_refusal board) out.old (forbidden_list (cells board))) }
{
    board.refusal()?;
    let lines = board.lines;
    let cells = cells_on(&lines);
    listed(&cells, out)
}

// The same of a board given as cell bytes.
#[tactic(auto, unfolding(rules::specs::Answers::answer, lent::specs::Lists::list_refusal, lent::specs::Lists::list_out, lent::specs::Lists::counted, rules::specs::Refusals::first))]
pub fn forbidden_points_of(cells: &[u8], out: &mut [u8]) -> Result<u16, Refusal>
    ensures { (result ≡ counted 2 (cells_refusal cells.now) out.old (forbidden_list cells.now))
        × (out.new ≡ list_out (cells_refusal cells.now) out.old (forbidden_list cells.now)) }
{
    cells_refusal(cells)?;
    listed(cells, out)
}

// The list of the cells of a board; 13 where it has no room.
#[tactic(auto, unfolding(lent::specs::Lists::counted))]
fn listed(cells: &[u8], out: &mut [u8]) -> Result<u16, Refusal>
    requires { Cells cells.now }
    ensures { (result ≡ counted 2 0 out.old (forbidden_list cells.now))
        × (out.new ≡ list_out 0 out.old (forbidden_list cells.now)) }
{
    let found = forbidden_pairs(cells);
    hand_out(found.as_slice(), (found.len() / 2) as u16, out)
}

// 9, 8, then 11 for an occupied point, where the plain verdict is not asked.
#[tactic(auto, unfolding(rules::specs::Answers::answer, rules::specs::Refusals::first, rules::specs::Refusals::unless, crate::specs::Answers::forbidden_refusal))]
fn forbidden_refusal(board: Board, code: u8) -> Result<(), Refusal>
    ensures { result ≡ checked (forbidden_refusal board code) }
{
    board.refusal_at(code)?;
    let lines = board.lines;
    unless(cell_on(&lines, code) == 0, Refusal::Occupied)
}
