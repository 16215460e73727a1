// Records about boards as text: `t`, `T` and `M` a text that is read, `c` one that is read as a diagram, `C` one that is converted; `d` and
// `D` diagrams that are written.
ghost use Rattle.std.specs.Prelude.{◌≤◌};

use super::fields::{rest_of, text_in};
use super::words::is_told;
use super::writing::{ask_board, replay_room};
use lent::{head, tail};
use records::{answer, byte, byte_at, bytes_in, bytes_of, cells_of, with_cell};
use renju::{renju_convert, renju_read, renju_read_diagram};

// `t`, `T` and `M`, and `c` of a diagram: the board or the refusal is recorded. It is asked into a buffer with room to spare, into one of just a board's length, and
// into one that is a byte short, which is refused last.
pub(crate) fn replay_text(saved: bool, record: &[u8]) -> u32 {
    let digits = text_in(record);
    let rest = rest_of(record);
    let refused = byte(rest, 1);
    let short = if refused == 0 { 13 } else { refused };
    let bytes = bytes_of(digits);
    let text = head(&bytes, bytes_in(digits));
    let cells = cells_of(tail(rest, 4));
    let mut t = replay_bounds(saved, digits);
    t = answer(t, reads(saved, text, 600, refused, &cells));
    t = answer(t, reads(saved, text, 225, refused, &cells));
    answer(t, reads(saved, text, 224, short, &cells))
}

// The text with spaces behind it, a byte longer than a text may be, is refused; so is one with a byte of 128.
fn replay_bounds(saved: bool, digits: &[u8]) -> u32 {
    let mut bytes = bytes_of(digits);
    let t = answer(0, reads(saved, &bytes, 600, 1, b""));
    if digits.len() == 0 {
        return t;
    }
    bytes[0] = 128;
    answer(t, reads(saved, head(&bytes, bytes_in(digits)), 600, 2, b""))
}

// What a text says, asked into so much of a buffer: the cells, or the refusal.
fn reads(saved: bool, text: &[u8], room: usize, refused: u8, cells: &[u8]) -> bool
    requires { room ≤ 600 }
{
    let mut out = [255u8; 600];
    let word = read_by(saved, text, &mut out[..room]);
    is_told(word, refused, cells, &out)
}

// A text read as a saved diagram, or by the live entry.
fn read_by(saved: bool, text: &[u8], out: &mut [u8]) -> u32 {
    if saved {
        return renju_read_diagram(text, out);
    }
    renju_read(text, out)
}

// `C`: the stones text or the refusal is recorded.
pub(crate) fn replay_converted(record: &[u8]) -> u32 {
    let digits = text_in(record);
    let rest = rest_of(record);
    let bytes = bytes_of(digits);
    let stones = bytes_of(tail(rest, 4));
    let mut out = [255u8; 600];
    let word = renju_convert(head(&bytes, bytes_in(digits)), &mut out);
    let wanted = head(&stones, bytes_in(tail(rest, 4)));
    answer(0, is_told(word, byte(rest, 1), wanted, &out))
}

// `d` and `D`: the text is recorded. Read, the plain diagram gives the board back; the numbered one is refused, its lines are too long.
pub(crate) fn replay_diagram(record: &[u8], refused: u8) -> u32 {
    let digits = text_in(record);
    let bytes = bytes_of(digits);
    let cells = cells_of(head(tail(record, 2), 225));
    let letter = byte_at(record, 0);
    let spoilt = with_cell(cells, 224, 3);
    let mut t = replay_room(0, record);
    t = answer(t, refuses_cells(letter, head(&cells, 224)));
    t = answer(t, refuses_cells(letter, &spoilt));
    answer(
        t,
        reads(true, head(&bytes, bytes_in(digits)), 600, refused, &cells),
    )
}

// Cells that are no board's: a byte too few, a byte over 2.
fn refuses_cells(letter: u8, cells: &[u8]) -> bool {
    let mut out = [255u8; 600];
    let word = ask_board(letter, cells, &mut out);
    is_told(word, 9, b"", &out)
}
