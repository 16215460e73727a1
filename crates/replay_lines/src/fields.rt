// The fields of a record. Each has a fixed width, so each stands at a fixed place.
use line::Line;
use masks::bit_at;
use records::{byte, hex};

// The mask of a line at a place.
pub(crate) fn mask(record: &[u8], at: usize) -> u16 {
    hex(record, at, 4)
}

// Mask k of 16 whose first stands at a place: Black's eight kinds, then White's.
pub(crate) fn mask_of(record: &[u8], first: u8, k: u8) -> u16 {
    mask(record, first as usize + 5 * k as usize)
}

// The colour and the kind that mask k is about.
pub(crate) fn colour_of(k: u8) -> u8 {
    1 + k / 8
}

pub(crate) fn kind_of(k: u8) -> u8 {
    k % 8
}

// The line that a record is about.
pub(crate) fn line_of(record: &[u8]) -> Line {
    Line {
        blacks: mask(record, 5),
        whites: mask(record, 10),
        size: byte(record, 2),
    }
}

// The number of the colour on cell i of a line, 0 for none.
pub(crate) fn stone_of(line: Line, i: u8) -> u8 {
    if bit_at(line.blacks, i) {
        return 1;
    }
    if bit_at(line.whites, i) { 2 } else { 0 }
}
