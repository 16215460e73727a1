// Records about lines and segments as text: `i` a text that is read, `I` a line that is written, `g` a segment.
use super::fields::{rest_of, text_in};
use super::words::{is_told, length_word, starts_with};
use super::writing::{replay_room, writes};
use display::{write_line, write_segment};
use lent::{head, tail};
use line::Line;
use records::{answer, byte, bytes_in, bytes_of, hex};
use rules::Refusal;
use segment::Segment;
use text::read_line;

// `i`: the line is recorded, or ff for too long a text.
pub(crate) fn replay_read_line(record: &[u8]) -> u32 {
    answer(
        0,
        is_line(line_in(text_in(record)), line_of(rest_of(record))),
    )
}

// `I`: the text is recorded; read, it gives the line back. The original writes lines of fewer than five cells too; here they are refused.
pub(crate) fn replay_line(record: &[u8]) -> u32 {
    let line = line_of(tail(record, 1));
    let digits = text_in(record);
    let t = answer(0, is_line(line_in(digits), line));
    if 15 < line.size {
        return answer(t, false);
    }
    if 5 <= line.size {
        return replay_room(t, record);
    }
    answer(answer(t, writes(record, 600, 10)), is_front(line, digits))
}

// `g`: the text of a segment is recorded. With bit 7 set it is none.
pub(crate) fn replay_segment(record: &[u8]) -> u32 {
    let mut out = [255u8; 600];
    let told = write_segment(
        Segment::new(byte(record, 2) | 128, byte(record, 5)),
        &mut out,
    );
    answer(
        replay_room(0, record),
        is_told(length_word(told), 9, b"", &out),
    )
}

// The segment whose masks are a record's fields.
pub(crate) fn segment_of(record: &[u8]) -> Segment {
    Segment::new(byte(record, 2), byte(record, 5))
}

// The line whose size and masks are a record's fields from here on.
pub(crate) fn line_of(fields: &[u8]) -> Line {
    Line {
        blacks: hex(fields, 4, 4),
        whites: hex(fields, 9, 4),
        size: byte(fields, 1),
    }
}

fn line_in(digits: &[u8]) -> Result<Line, Refusal> {
    let bytes = bytes_of(digits);
    read_line(head(&bytes, bytes_in(digits)))
}

// A size of ff stands for the refusal of a text with more than 15 cells.
fn is_line(answer: Result<Line, Refusal>, line: Line) -> bool {
    match answer {
        Ok(read) => read == line,
        Err(refusal) => refusal == Refusal::OverLength && line.size == 255,
    }
}

// Whether the text of a shorter line is the front of what is written with five cells, two bytes a cell.
fn is_front(line: Line, digits: &[u8]) -> bool {
    let wide = Line {
        blacks: line.blacks,
        whites: line.whites,
        size: 5,
    };
    let bytes = bytes_of(digits);
    let len = bytes_in(digits);
    let mut out = [255u8; 600];
    let _ = write_line(wide, &mut out);
    (len == 2 * line.size as usize) & starts_with(&out, head(&bytes, len))
}
