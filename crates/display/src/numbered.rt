// The numbered diagram, `to_pretty_string`: each row after its number, and the letters of the columns below.
ghost use Rattle.std.specs.Prelude.{◌≡◌, ◌+◌, ◌<◌, ◌≤◌, ◌++◌, length};
ghost use Rattle.lent.specs.Lists.{list_out};
ghost use Rattle.cells.specs.Cells.{cells_refusal};
ghost use Rattle.board.specs.Boards.{cells, board_refusal};
ghost use Rattle.display.specs.Answers.{written};
ghost use Rattle.display.specs.Texts.{right_aligned, numbered_row, numbered_of};

use super::diagram::row_into;
use super::layout::{hand_out, put, put_if};
use super::number::number_into;
use board::Board;
use cells::cells_refusal;
use grid::cells_on;
use lent::Kept;
use rules::Refusal;

// 527 bytes: 9 for a board that is not sound.
#[tactic(auto, unfolding(crate::specs::Answers::written, rules::specs::Answers::answer, lent::specs::Lists::list_refusal, lent::specs::Lists::list_out, rules::specs::Refusals::first))]
pub fn write_numbered(board: Board, out: &mut [u8]) -> Result<usize, Refusal>
    ensures { (result ≡ written (board_refusal board) out.old (numbered_of (cells board)))
        × (out.new ≡ list_out (board_refusal board) out.old (numbered_of (cells board))) }
{
    board.refusal()?;
    let lines = board.lines;
    let cells = cells_on(&lines);
    hand_out(numbered_in(&cells).as_slice(), out)
}

// The same of cell bytes: 9 for bytes of another length than 225, or with a byte over 2.
#[tactic(auto, unfolding(crate::specs::Answers::written, rules::specs::Answers::answer, lent::specs::Lists::list_refusal, lent::specs::Lists::list_out, rules::specs::Refusals::first))]
pub fn write_numbered_of(cells: &[u8], out: &mut [u8]) -> Result<usize, Refusal>
    ensures { (result ≡ written (cells_refusal cells.now) out.old (numbered_of cells.now))
        × (out.new ≡ list_out (cells_refusal cells.now) out.old (numbered_of cells.now)) }
{
    cells_refusal(cells)?;
    hand_out(numbered_in(cells).as_slice(), out)
}

// The rows and the letters.
fn numbered_in(cells: &[u8]) -> Kept<527>
    ensures { result ≡ numbered_of cells.now }
{
    let mut text = Kept::new();
    for k in 0..15u8 {
        numbered_row_into(cells, k, &mut text);
    }
    put(b"   A B C D E F G H I J K L M N O", &mut text);
    text
}

// Row k from the top after its number, and byte 10.
#[tactic(auto, unfolding(crate::specs::Texts::numbered_row))]
fn numbered_row_into<const N: usize>(cells: &[u8], k: u8, text: &mut Kept<N>)
    requires { (length text.old + 33 ≤ N) × (k < 15) }
    ensures { text.new ≡ text.old ++ numbered_row cells.now k }
{
    right_into(15 - k, text);
    row_into(cells, 14 - k, text);
    put(b"\n", text);
}

// A number below 100 in two places, to the right.
#[tactic(auto, unfolding(crate::specs::Texts::right_aligned))]
fn right_into<const N: usize>(n: u8, text: &mut Kept<N>)
    requires { length text.old + 4 ≤ N }
    ensures { text.new ≡ text.old ++ right_aligned n }
{
    put_if(n < 10, b" ", text);
    number_into(n, text);
}
