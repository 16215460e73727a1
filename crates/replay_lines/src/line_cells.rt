// Records about a cell of a line: the rows through it, as masks and as lists in lent buffers; and the lists of a whole line.
ghost use Rattle.std.specs.Prelude.{◌≤◌};

use super::fields::{colour_of, kind_of, line_of, mask_of};
use lent::Kept;
use line::Line;
use masks::bit_at;
use records::{answer, byte, count_bits, holds, refusal_word, word};
use renju::renju_line_starts_on;
use rules::Refusal;
use segment::Segment;

// `c`: the starts for each colour and kind are recorded.
pub(crate) fn replay_cell(record: &[u8]) -> u32 {
    let line = line_of(record);
    let cell = byte(record, 15);
    let mut t = 0u32;
    for k in 0..16u8 {
        t = replay_rows_on(t, line, cell, k, mask_of(record, 18, k));
    }
    t
}

// The mask, then the list: in a buffer of just its length, and in one that is a byte short.
fn replay_rows_on(before: u32, line: Line, cell: u8, k: u8, starts: u16) -> u32 {
    let wanted = rows_of(line, starts);
    let rows = count_bits(starts);
    let len = 3 * rows as usize;
    let told = renju_line_starts_on(
        line.blacks,
        line.whites,
        line.size,
        colour_of(k),
        kind_of(k),
        cell,
    );
    let mut t = answer(before, told == starts as u32);
    t = answer(
        t,
        lists_rows_on(line, cell, k, len, rows as u32, wanted.as_slice()),
    );
    if len == 0 {
        return t;
    }
    answer(
        t,
        lists_rows_on(
            line,
            cell,
            k,
            len - 1,
            refusal_word(Refusal::NoRoom as u8),
            b"",
        ),
    )
}

// The word, and every byte of the buffer of which so many are lent. A refusal changes none.
fn lists_rows_on(line: Line, cell: u8, k: u8, room: usize, known: u32, wanted: &[u8]) -> bool
    requires { room ≤ 48 }
{
    let mut out = [255u8; 48];
    let told = line.rows_on(cell, colour_of(k), kind_of(k), &mut out[..room]);
    (word(told) == known) & holds(&out, wanted)
}

// The rows of a whole line, in a buffer with room to spare.
pub(crate) fn lists_rows(line: Line, colour: u8, kind: u8, starts: u16) -> bool {
    let wanted = rows_of(line, starts);
    let mut out = [255u8; 48];
    let told = line.rows(colour, kind, &mut out);
    (word(told) == count_bits(starts) as u32) & holds(&out, wanted.as_slice())
}

// All segments of a line, whose starts are given.
pub(crate) fn lists_segments(line: Line, starts: u16) -> bool {
    let wanted = rows_of(line, starts);
    let mut out = [255u8; 48];
    let told = line.segments(&mut out);
    (word(told) == count_bits(starts) as u32) & holds(&out, wanted.as_slice())
}

// The starts, ascending, each with its segment: three bytes each.
fn rows_of(line: Line, starts: u16) -> Kept<48> {
    let mut rows = Kept::<48>::new();
    for j in 0..16u8 {
        if bit_at(starts, j) {
            let segment = segment_at(line, j);
            rows.keep(&[j, segment.blacks, segment.whites]);
        }
    }
    rows
}

// Where there is none its masks have bit 7, which no segment's has.
fn segment_at(line: Line, j: u8) -> Segment {
    line.segment(j).unwrap_or(Segment::new(128, 128))
}
