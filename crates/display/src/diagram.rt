// The plain diagram: rows 15 down to 1, parted by byte 10.
ghost use Rattle.std.specs.Prelude.{◌≡◌, ◌+◌, ◌<◌, ◌≤◌, ◌++◌, length};
ghost use Rattle.lent.specs.Lists.{list_out};
ghost use Rattle.cells.specs.Cells.{cells_refusal};
ghost use Rattle.board.specs.Boards.{cells, board_refusal};
ghost use Rattle.display.specs.Answers.{written};
ghost use Rattle.display.specs.Texts.{row_text, plain_row, diagram_of};

use super::layout::{hand_out, put_if};
use super::line_text::line_into;
use board::Board;
use cells::cells_refusal;
use grid::cells_on;
use lent::Kept;
use rules::Refusal;

// 464 bytes: 9 for a board that is not sound.
#[tactic(auto, unfolding(crate::specs::Answers::written, rules::specs::Answers::answer, lent::specs::Lists::list_refusal, lent::specs::Lists::list_out, rules::specs::Refusals::first))]
pub fn write_diagram(board: Board, out: &mut [u8]) -> Result<usize, Refusal>
    ensures { (result ≡ written (board_refusal board) out.old (diagram_of (cells board)))
        × (out.new ≡ list_out (board_refusal board) out.old (diagram_of (cells board))) }
{
    board.refusal()?;
    let lines = board.lines;
    let cells = cells_on(&lines);
    hand_out(diagram_in(&cells).as_slice(), out)
}

// The same of cell bytes: 9 for bytes of another length than 225, or with a byte over 2.
#[tactic(auto, unfolding(crate::specs::Answers::written, rules::specs::Answers::answer, lent::specs::Lists::list_refusal, lent::specs::Lists::list_out, rules::specs::Refusals::first))]
pub fn write_diagram_of(cells: &[u8], out: &mut [u8]) -> Result<usize, Refusal>
    ensures { (result ≡ written (cells_refusal cells.now) out.old (diagram_of cells.now))
        × (out.new ≡ list_out (cells_refusal cells.now) out.old (diagram_of cells.now)) }
{
    cells_refusal(cells)?;
    hand_out(diagram_in(cells).as_slice(), out)
}

// The rows: there is room for a byte 10 behind each.
fn diagram_in(cells: &[u8]) -> Kept<465>
    ensures { result ≡ diagram_of cells.now }
{
    let mut text = Kept::new();
    for k in 0..15u8 {
        plain_row_into(cells, k, &mut text);
    }
    text
}

// Row k from the top, and byte 10 where another follows.
#[tactic(auto, unfolding(crate::specs::Texts::plain_row))]
fn plain_row_into<const N: usize>(cells: &[u8], k: u8, text: &mut Kept<N>)
    requires { (length text.old + 31 ≤ N) × (k < 15) }
    ensures { text.new ≡ text.old ++ plain_row cells.now k }
{
    row_into(cells, 14 - k, text);
    put_if(k < 14, b"\n", text);
}

// The cells of horizontal line y, which lie 15 codes apart.
#[tactic(auto, using(crate::proofs::Steps::row_steps))]
pub(crate) fn row_into<const N: usize>(cells: &[u8], y: u8, text: &mut Kept<N>)
    requires { (length text.old + 30 ≤ N) × (y < 15) }
    ensures { text.new ≡ text.old ++ row_text cells.now y }
{
    line_into(cells, y, 15, 15, text);
}
