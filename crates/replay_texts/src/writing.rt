// Records that hold a text that is written: it is asked into a buffer with room to spare, into one of just its length, and into one that
// is a byte short.
ghost use Rattle.std.specs.Prelude.{◌≤◌};

use super::fields::{rest_of, text_in};
use super::lines::{line_of, segment_of};
use super::words::{is_told, length_word};
use display::{write_line, write_point, write_points, write_segment};
use lent::{head, tail};
use records::{answer, byte, byte_at, bytes_in, bytes_of, cells_of};
use renju::{renju_to_pretty_string, renju_to_string};

// Where the record has an empty text there is no shorter buffer.
pub(crate) fn replay_room(before: u32, record: &[u8]) -> u32 {
    let len = bytes_in(text_in(record));
    if 600 < len {
        return answer(before, false);
    }
    let mut t = answer(before, writes(record, 600, 0));
    t = answer(t, writes(record, len, 0));
    if len == 0 {
        return t;
    }
    answer(t, writes(record, len - 1, 13))
}

// The text, or the refusal, in so much of a buffer.
pub(crate) fn writes(record: &[u8], room: usize, refused: u8) -> bool
    requires { room ≤ 600 }
{
    let digits = text_in(record);
    let bytes = bytes_of(digits);
    let mut out = [255u8; 600];
    let word = ask(record, &mut out[..room]);
    is_told(word, refused, head(&bytes, bytes_in(digits)), &out)
}

// What a record's letter and fields ask.
fn ask(record: &[u8], out: &mut [u8]) -> u32 {
    match byte_at(record, 0) {
        b'y' => length_word(write_point(byte(record, 2), out)),
        b'I' => length_word(write_line(line_of(tail(record, 1)), out)),
        b'g' => length_word(write_segment(segment_of(record), out)),
        b'P' => ask_list(tail(rest_of(record), 1), out),
        _ => ask_diagram(record, out),
    }
}

fn ask_list(digits: &[u8], out: &mut [u8]) -> u32 {
    let codes = bytes_of(digits);
    length_word(write_points(head(&codes, bytes_in(digits)), out))
}

fn ask_diagram(record: &[u8], out: &mut [u8]) -> u32 {
    let cells = cells_of(head(tail(record, 2), 225));
    ask_board(byte_at(record, 0), &cells, out)
}

// The plain diagram, or the numbered one.
pub(crate) fn ask_board(letter: u8, cells: &[u8], out: &mut [u8]) -> u32 {
    match letter {
        b'd' => renju_to_string(cells, out),
        _ => renju_to_pretty_string(cells, out),
    }
}
