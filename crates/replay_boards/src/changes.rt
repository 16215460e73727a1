// Cells changed where they stand: stones put and removed.
ghost use Rattle.std.specs.Prelude.{◌≤◌};

use records::{answer, holds, refusal_word, with_cell};
use renju::{renju_put, renju_remove};

// Changes at every eighth point, and past the board.
pub(crate) fn replay_changes(before: u32, cells: [u8; 225]) -> u32 {
    let mut t = before;
    for code in (0..248u8).step_by(8) {
        t = replay_change(t, cells, code);
    }
    t
}

// A stone of each colour put, and what stands there removed; a colour that is none; cells that are no board's.
fn replay_change(before: u32, cells: [u8; 225], code: u8) -> u32 {
    let spoilt = with_cell(cells, 224, 3);
    let mut t = answer(before, changes(cells, 225, code, 1, refusal_at(code, 0)));
    t = answer(t, changes(cells, 225, code, 2, refusal_at(code, 0)));
    t = answer(t, changes(cells, 225, code, 0, refusal_at(code, 0)));
    t = answer(t, changes(cells, 225, code, 3, refusal_at(code, 12)));
    t = answer(t, changes(cells, 224, code, 1, refusal_word(9)));
    answer(t, changes(spoilt, 225, code, 0, refusal_word(9)))
}

// The word of a refusal, 0 for none: 8 comes before where the code is no point's.
fn refusal_at(code: u8, number: u8) -> u32 {
    if code < 225 {
        refusal_word(number)
    } else {
        refusal_word(8)
    }
}

// The word, and every byte of the cells of which so many are lent: a value put at a point, 0 for none.
fn changes(cells: [u8; 225], room: usize, code: u8, value: u8, word: u32) -> bool
    requires { room ≤ 225 }
{
    let mut page = cells;
    let told = change(&mut page[..room], code, value);
    told == word && is_changed(&page, cells, code, value, word)
}

fn change(cells: &mut [u8], code: u8, value: u8) -> u32 {
    if value == 0 {
        renju_remove(cells, code)
    } else {
        renju_put(cells, code, value)
    }
}

// A refusal leaves the cells as they are.
fn is_changed(page: &[u8; 225], cells: [u8; 225], code: u8, value: u8, word: u32) -> bool {
    if word != 0 {
        return holds(page, &cells);
    }
    let changed = with_cell(cells, code, value);
    holds(page, &changed)
}
