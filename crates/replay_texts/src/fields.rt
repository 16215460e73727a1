// The parts of a record: its text, in hex digits, and what stands before and behind. Only a text has no fixed width.
use lent::{head, tail};
use records::{byte, byte_at, find_from, has_form};

// The digits of a record's text: up to the next space, or to the end.
pub(crate) fn text_in(record: &[u8]) -> &[u8] {
    let start = start_of(record);
    tail(head(record, find_from(record, start, b' ')), start)
}

// What stands behind the text, the space too.
pub(crate) fn rest_of(record: &[u8]) -> &[u8] {
    tail(record, find_from(record, start_of(record), b' '))
}

// Where the text of a record starts.
fn start_of(record: &[u8]) -> usize {
    match byte_at(record, 0) {
        b't' | b'T' | b'M' | b'c' | b'C' | b'i' | b'p' | b'L' | b'P' => 2,
        b'y' => 5,
        b'g' => 8,
        b'I' => 15,
        _ => 228,
    }
}

// Whether a record is well formed. Cells are looked at where they are read: a character that is none makes them no board's.
pub(crate) fn is_whole(record: &[u8]) -> bool {
    let digits = text_in(record);
    let len = digits.len();
    (byte_at(record, 1) == b' ')
        & (len <= 8192)
        & (len % 2 == 0)
        & has_form(digits, b"")
        & has_fields(record)
}

// The fields beside the text. Where it is the last one nothing stands behind it.
fn has_fields(record: &[u8]) -> bool {
    match byte_at(record, 0) {
        b't' | b'T' | b'M' | b'c' => is_board_field(rest_of(record)),
        b'p' | b'L' | b'C' => is_list_field(rest_of(record)),
        b'P' => is_list(rest_of(record)),
        b'g' => has_form(tail(record, 1), b" 00 00 "),
        b'd' | b'D' => has_form(tail(record, 227), b" "),
        b'y' => has_form(tail(record, 1), b" 00 "),
        b'i' => is_line_field(rest_of(record)),
        b'I' => has_form(tail(record, 1), b" 00 0000 0000 "),
        _ => false,
    }
}

// 00 and the cells, or the number of a refusal alone.
fn is_board_field(rest: &[u8]) -> bool {
    if byte(rest, 1) == 0 {
        return has_form(head(rest, 4), b" 00 ");
    }
    (rest.len() == 3) & has_form(rest, b" 00")
}

// 00 and a list, or the number of a refusal alone.
fn is_list_field(rest: &[u8]) -> bool {
    if byte(rest, 1) == 0 {
        return has_form(head(rest, 3), b" 00") & is_list(tail(rest, 3));
    }
    (rest.len() == 3) & has_form(rest, b" 00")
}

// A space, and two digits a byte.
fn is_list(rest: &[u8]) -> bool {
    (rest.len() % 2 == 1) & has_form(rest, b" ")
}

// The size and two masks, or ff alone.
fn is_line_field(rest: &[u8]) -> bool {
    if byte(rest, 1) == 255 {
        return (rest.len() == 3) & has_form(rest, b" 00");
    }
    (rest.len() == 13) & has_form(rest, b" 00 0000 0000")
}
