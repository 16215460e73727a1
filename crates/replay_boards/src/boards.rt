// The record that opens a block: the board built from its cells, read, turned and changed.
use super::changes::replay_changes;
use super::views::replay_views;
use board::Board;
use lent::head;
use records::{answer, holds, word};
use renju::renju_stones;
use rules::Refusal;

// `b`: all that is asked of the board must be as its cells say.
pub(crate) fn replay_board(cells: [u8; 225]) -> u32 {
    let Ok(board) = Board::from_cells(&cells) else {
        return answer(0, false);
    };
    let mut t = answer(0, is_board(Ok(board), &cells));
    t = answer(t, is_board(rebuilt(&cells), &cells));
    t = replay_stones(t, board, cells);
    replay_changes(replay_views(t, cells), cells)
}

// The board made anew from its stones, which are listed.
fn rebuilt(cells: &[u8]) -> Result<Board, Refusal> {
    let mut black = [0u8; 225];
    let mut white = [0u8; 225];
    let blacks = renju_stones(cells, 1, &mut black);
    let whites = renju_stones(cells, 2, &mut white);
    Board::from_stones(head(&black, blacks as usize), head(&white, whites as usize))
}

// Whether a board was given, and has these cells.
fn is_board(told: Result<Board, Refusal>, cells: &[u8]) -> bool {
    let Ok(board) = told else {
        return false;
    };
    let mut page = [255u8; 300];
    word(board.to_cells(&mut page)) == 225 && is_page(&page, cells)
}

// The reference to an array gives its length, which the array itself has lost once it was lent.
fn is_page(page: &[u8; 300], wanted: &[u8]) -> bool {
    holds(page, wanted)
}

fn replay_stones(before: u32, board: Board, cells: [u8; 225]) -> u32 {
    let mut t = before;
    for code in 0u8..225 {
        t = answer(t, word(board.stone(code)) == cells[code as usize] as u32);
    }
    t
}
