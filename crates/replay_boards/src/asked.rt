// Questions about cells, asked of the host functions: each answers a word, and writes its list or its cells to a lent buffer. A question is
// the letter of a record that holds a list, and its fields; or `v`, and the number of a view.
ghost use Rattle.std.specs.Prelude.{◌≤◌};

use lent::head;
use records::{answer, byte_at, holds, refusal_word, with_cell};
use renju::{
    renju_empty_points, renju_forbidden_points, renju_four_eyes_on, renju_neighbors, renju_rows,
    renju_rows_on, renju_stones, renju_turn,
};

// The answer is asked into a buffer with room to spare, into one of just its length, and into one that is a byte short.
pub(crate) fn replay_room(before: u32, cells: &[u8], q: &[u8], word: u32, wanted: &[u8]) -> u32 {
    let len = wanted.len();
    if 3200 < len {
        return answer(before, false);
    }
    let mut t = answer(before, answers(cells, q, 3200, word, wanted));
    t = answer(t, answers(cells, q, len, word, wanted));
    if len == 0 {
        return t;
    }
    answer(t, refuses(cells, q, len - 1, 13))
}

// Cells that are no board's are refused: a byte over 2, a byte too few.
pub(crate) fn replay_unsound(t: u32, cells: [u8; 225], q: &[u8]) -> u32 {
    let spoilt = with_cell(cells, 224, 3);
    answer(
        answer(t, refuses(head(&cells, 224), q, 3200, 9)),
        refuses(&spoilt, q, 3200, 9),
    )
}

// A refusal changes no byte.
pub(crate) fn refuses(cells: &[u8], q: &[u8], room: usize, number: u8) -> bool
    requires { room ≤ 3200 }
{
    answers(cells, q, room, refusal_word(number), b"")
}

// The word, and every byte of the page of which so many are lent.
pub(crate) fn answers(cells: &[u8], q: &[u8], room: usize, word: u32, wanted: &[u8]) -> bool
    requires { room ≤ 3200 }
{
    let mut page = [255u8; 3200];
    let told = ask(cells, q, &mut page[..room]);
    (told == word) & is_page(&page, wanted)
}

// The reference to an array gives its length, which the array itself has lost once a part of it was lent.
fn is_page(page: &[u8; 3200], wanted: &[u8]) -> bool {
    holds(page, wanted)
}

// What is no list is a view.
fn ask(cells: &[u8], q: &[u8], out: &mut [u8]) -> u32 {
    let a = byte_at(q, 1);
    let b = byte_at(q, 2);
    let c = byte_at(q, 3);
    match byte_at(q, 0) {
        b'f' | b'F' => renju_forbidden_points(cells, out),
        b'k' => renju_stones(cells, a, out),
        b'm' => renju_empty_points(cells, out),
        b'r' => renju_rows(cells, a, b, out),
        b'o' => renju_rows_on(cells, a, b, c, out),
        b'e' => renju_four_eyes_on(cells, a, b, out),
        b'n' => renju_neighbors(cells, a, b, c == 1, out),
        _ => renju_turn(cells, a, out),
    }
}
