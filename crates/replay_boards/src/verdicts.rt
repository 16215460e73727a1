// Records that hold a verdict for every point: `s` and `S` the strict ones, `p` and `P` the plain ones.
use board::Board;
use lent::head;
use records::{answer, byte_at, refusal_word, with_cell, word};
use referee::{forbidden_strict, is_double_three};
use renju::{renju_forbidden, renju_forbidden_strict};

// Cells that are no board's are refused, before a code is. The board by value is asked too, which is lent to the referee: for its strict
// verdicts, and beside the plain ones whether a double three is there, asked alone.
pub(crate) fn replay_verdicts(cells: [u8; 225], record: &[u8]) -> u32 {
    let Ok(board) = Board::from_cells(&cells) else {
        return answer(0, false);
    };
    if record.len() != 227 {
        return answer(0, false);
    }
    let spoilt = with_cell(cells, 224, 3);
    let mut t = answer(0, ask(&spoilt, record, 0) == refusal_word(9));
    t = answer(t, ask(head(&cells, 224), record, 225) == refusal_word(9));
    replay_codes(t, board, &cells, record)
}

fn replay_codes(before: u32, board: Board, cells: &[u8], record: &[u8]) -> u32 {
    let mut t = before;
    for code in 0u8..=255 {
        t = answer(t, ask(cells, record, code) == word_at(record, code));
        t = replay_point(t, board, record, code);
    }
    t
}

// What a record's letter asks of a code.
fn ask(cells: &[u8], record: &[u8], code: u8) -> u32 {
    match byte_at(record, 0) {
        b's' | b'S' => renju_forbidden_strict(cells, code),
        _ => renju_forbidden(cells, code),
    }
}

// The word that a record has for a code: the verdict, or, for `-`, that a stone is there. 4, which is no verdict, for any other character.
// Past the board there is no point.
fn word_at(record: &[u8], code: u8) -> u32 {
    if 224 < code {
        return refusal_word(8);
    }
    match byte_at(record, code as usize + 2) {
        b'0' => 0,
        b'1' => 1,
        b'2' => 2,
        b'3' => 3,
        b'-' => refusal_word(11),
        _ => 4,
    }
}

// What is asked of the board by value at a point.
fn replay_point(t: u32, board: Board, record: &[u8], code: u8) -> u32 {
    if 224 < code {
        return t;
    }
    let recorded = word_at(record, code);
    match byte_at(record, 0) {
        b's' | b'S' => answer(t, word(forbidden_strict(board, code)) == recorded),
        _ => replay_double(t, word(is_double_three(board, code)), recorded),
    }
}

// Where the plain verdict is a double three, it is one; where it is none, or a stone is there, not. A kind that comes before hides it.
fn replay_double(t: u32, told: u32, verdict: u32) -> u32 {
    match verdict {
        1 => answer(t, told == 1),
        2 | 3 => t,
        _ => answer(t, told == 0),
    }
}
