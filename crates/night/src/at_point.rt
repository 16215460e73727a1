// What is asked at each point, occupied ones too: both verdicts, and for each colour the four eyes and the rows of each kind through it.
use super::same_page;
use board::Board;
use records::{answer, word};

pub(crate) fn ask_points(before: u32, board: Board, cells: &[u8]) -> u32 {
    let mut t = before;
    for code in 0u8..225 {
        t = ask_verdicts(t, board, cells, code);
        t = ask_through(t, board, cells, code, 1);
        t = ask_through(t, board, cells, code, 2);
    }
    t
}

// At an occupied point the strict verdict is none, and the plain one is refused.
fn ask_verdicts(before: u32, board: Board, cells: &[u8], code: u8) -> u32 {
    let strict = word(referee::forbidden_strict(board, code));
    let plain = word(referee::forbidden(board, code));
    let t = answer(
        before,
        strict == word(second::forbidden_strict(cells, code)),
    );
    answer(t, plain == word(second::forbidden(cells, code)))
}

fn ask_through(before: u32, board: Board, cells: &[u8], code: u8, colour: u8) -> u32 {
    let mut t = answer(before, same_eyes(board, cells, code, colour));
    for kind in 0u8..8 {
        t = answer(t, same_rows(board, cells, code, colour, kind));
    }
    t
}

fn same_eyes(board: Board, cells: &[u8], code: u8, colour: u8) -> bool {
    let mut page = [255u8; 240];
    let mut other = [255u8; 240];
    let count = word(lists::four_eyes_on(board, code, colour, &mut page));
    let told = word(second::four_eyes_on(cells, code, colour, &mut other));
    count == told && same_page(&page, &other)
}

fn same_rows(board: Board, cells: &[u8], code: u8, colour: u8, kind: u8) -> bool {
    let mut page = [255u8; 240];
    let mut other = [255u8; 240];
    let count = word(lists::rows_on(board, code, colour, kind, &mut page));
    let told = word(second::rows_on(cells, code, colour, kind, &mut other));
    count == told && same_page(&page, &other)
}
