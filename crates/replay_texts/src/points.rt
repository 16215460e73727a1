// Records about points and lists of points as text.
use super::fields::{rest_of, text_in};
use super::words::{is_told, length_word};
use super::writing::replay_room;
use display::write_point;
use lent::{head, tail};
use records::{answer, byte, bytes_in, bytes_of, word};
use text::{read_point, read_points};

// `y`: the text of a code is recorded; read, it gives the code back. The last 31 codes also stand for those past them, which are no
// point's.
pub(crate) fn replay_point(record: &[u8]) -> u32 {
    let code = byte(record, 2);
    let t = replay_named(replay_room(0, record), record);
    if !(194..=224).contains(&code) {
        return t;
    }
    let mut out = [255u8; 600];
    let told = write_point(code + 31, &mut out);
    answer(t, is_told(length_word(told), 8, b"", &out))
}

// The code of a text, alone and as a list.
fn replay_named(t: u32, record: &[u8]) -> u32 {
    let digits = text_in(record);
    let bytes = bytes_of(digits);
    let told = read_point(head(&bytes, bytes_in(digits)));
    answer(
        answer(t, word(told) == byte(record, 2) as u32),
        reads_list(digits, 0, head(tail(record, 2), 2)),
    )
}

// `p` and `L`: the list or the refusal is recorded.
pub(crate) fn replay_list(record: &[u8]) -> u32 {
    let rest = rest_of(record);
    answer(0, reads_list(text_in(record), byte(rest, 1), tail(rest, 4)))
}

// `P`: the text of a list is recorded; read, it gives the list back, but where there are no points.
pub(crate) fn replay_listed(record: &[u8]) -> u32 {
    let listed = tail(rest_of(record), 1);
    let refused = if listed.len() == 0 { 3 } else { 0 };
    answer(
        replay_room(0, record),
        reads_list(text_in(record), refused, listed),
    )
}

// The codes of a list, or the refusal.
fn reads_list(digits: &[u8], refused: u8, listed: &[u8]) -> bool {
    let bytes = bytes_of(digits);
    let codes = bytes_of(listed);
    let mut out = [255u8; 600];
    let told = read_points(head(&bytes, bytes_in(digits)), &mut out);
    is_told(word(told), refused, head(&codes, bytes_in(listed)), &out)
}
