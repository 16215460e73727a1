// Records that hold a list: the number of its items and their bytes are recorded.
use super::asked::{refuses, replay_room, replay_unsound};
use super::starts::has_starts;
use lent::{head, tail};
use records::{answer, byte, byte_at, bytes_in, bytes_of, has_form};

// A list that starts at a place of its record, with items of so many bytes. The masks of starts are asked where rows through a point are
// listed.
pub(crate) fn replay_list(cells: [u8; 225], record: &[u8], at: u8, size: u8) -> u32 {
    let digits = tail(record, at as usize);
    if !is_list(record, digits, at) {
        return answer(0, false);
    }
    let letter = byte_at(record, 0);
    let a = byte(record, 2);
    let b = byte(record, 5);
    let q = [letter, a, b, byte(record, 8)];
    let bytes = bytes_of(digits);
    let wanted = head(&bytes, bytes_in(digits));
    let mut t = replay_unsound(0, cells, &q);
    let board: &[u8] = &cells;
    t = replay_room(t, board, &q, items_in(digits, size), wanted);
    t = replay_bounds(t, board, letter, a, b);
    if letter == b'o' {
        return answer(t, has_starts(board, record));
    }
    t
}

// Whether a record has room for its fields, and digits for whole bytes behind them.
fn is_list(record: &[u8], digits: &[u8], at: u8) -> bool {
    (at as usize <= record.len()) & (digits.len() % 2 == 0) & has_form(digits, b"")
}

// 225 is no code, 8, and no colour, kind or distance, 12. Both are refused before too little room is.
fn replay_bounds(t: u32, cells: &[u8], letter: u8, a: u8, b: u8) -> u32 {
    match letter {
        b'f' | b'F' | b'm' => t,
        b'k' => answer(t, refuses(cells, &[letter, 225], 0, 12)),
        b'r' => answer(
            answer(t, refuses(cells, &[letter, 225, b], 0, 12)),
            refuses(cells, &[letter, a, 225], 0, 12),
        ),
        _ => answer(
            answer(t, refuses(cells, &[letter, 225, b], 0, 8)),
            refuses(cells, &[letter, a, 225], 0, 12),
        ),
    }
}

fn items_in(digits: &[u8], size: u8) -> u32 {
    let bytes = bytes_in(digits) as u32;
    match size {
        1 => bytes,
        2 => bytes / 2,
        _ => bytes / 4,
    }
}
