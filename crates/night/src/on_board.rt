// What is asked of a board as a whole: the rows of each kind, and the forbidden points.
use super::same_page;
use board::Board;
use records::{answer, word};

pub(crate) fn ask_rows(before: u32, board: Board, cells: &[u8], colour: u8) -> u32 {
    let mut t = before;
    for kind in 0u8..8 {
        t = answer(t, same_rows(board, cells, colour, kind));
    }
    t
}

pub(crate) fn ask_forbidden(before: u32, board: Board, cells: &[u8]) -> u32 {
    answer(before, same_forbidden(board, cells))
}

fn same_rows(board: Board, cells: &[u8], colour: u8, kind: u8) -> bool {
    let mut page = [255u8; 4320];
    let mut other = [255u8; 4320];
    let count = word(lists::rows(board, colour, kind, &mut page));
    let told = word(second::rows(cells, colour, kind, &mut other));
    count == told && same_page(&page, &other)
}

fn same_forbidden(board: Board, cells: &[u8]) -> bool {
    let mut page = [255u8; 4320];
    let mut other = [255u8; 4320];
    let count = word(referee::forbidden_points(board, &mut page));
    let told = word(second::forbidden_points(cells, &mut other));
    count == told && same_page(&page, &other)
}
