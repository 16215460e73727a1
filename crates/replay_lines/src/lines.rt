// Records about a whole line: its rows and eyes, its stones, and the masks for a number of stones.
use super::asked::replay_refusals;
use super::fields::{colour_of, kind_of, line_of, mask, mask_of, stone_of};
use super::line_cells::{lists_rows, lists_segments};
use line::Line;
use records::{answer, byte, word};
use renju::{renju_line_eyes, renju_line_starts};
use rules::Refusal;

// `l`: rows, eyes and bounds are recorded; the stones must be those of the record's own masks.
pub(crate) fn replay_line(record: &[u8]) -> u32 {
    let line = line_of(record);
    let mut t = replay_rows(line, record);
    t = answer(t, word(line.score_bound(1)) == byte(record, 175) as u32);
    t = answer(t, word(line.score_bound(2)) == byte(record, 178) as u32);
    t = replay_cells(replay_masks(t, line), line);
    replay_refusals(t, line)
}

// `q`: the masks for a colour and a number of stones.
pub(crate) fn replay_number(record: &[u8]) -> u32 {
    let line = line_of(record);
    let colour = byte(record, 15);
    let n = byte(record, 18);
    let mut t = answer(
        0,
        word(line.count_mask(colour, n)) == mask(record, 21) as u32,
    );
    t = answer(
        t,
        word(line.score_mask(colour, n)) == mask(record, 26) as u32,
    );
    answer(
        t,
        word(line.open_starts(colour, n)) == mask(record, 31) as u32,
    )
}

// `z`: the eyes of some starts.
pub(crate) fn replay_eyes(record: &[u8]) -> u32 {
    let eyes = line_of(record).eyes_of(mask(record, 15), byte(record, 20));
    answer(0, word(eyes) == mask(record, 23) as u32)
}

fn replay_rows(line: Line, record: &[u8]) -> u32 {
    let mut t = 0u32;
    for k in 0..16u8 {
        t = replay_kind(t, line, record, k);
    }
    t
}

// A colour's rows of a kind: as a mask, as a list, and their eyes.
fn replay_kind(before: u32, line: Line, record: &[u8], k: u8) -> u32 {
    let colour = colour_of(k);
    let kind = kind_of(k);
    let starts = mask_of(record, 15, k);
    let mut t = answer(
        before,
        renju_line_starts(line.blacks, line.whites, line.size, colour, kind) == starts as u32,
    );
    t = answer(t, lists_rows(line, colour, kind, starts));
    let eyes = renju_line_eyes(line.blacks, line.whites, line.size, colour, kind);
    answer(t, eyes == mask_of(record, 95, k) as u32)
}

// The line as masks and as segments.
fn replay_masks(before: u32, line: Line) -> u32 {
    let mut t = answer(before, word(line.stones(1)) == line.blacks as u32);
    t = answer(t, word(line.stones(2)) == line.whites as u32);
    t = answer(
        t,
        word(line.empty_cells()) == others(line.blacks | line.whites, line.size) as u32,
    );
    answer(t, lists_segments(line, windows_of(line.size)))
}

// The line cell by cell, made anew stone by stone, and taken apart again.
fn replay_cells(before: u32, line: Line) -> u32 {
    let size = line.size;
    let mut t = before;
    let mut built = made(Line::new(size));
    let mut cleared = line;
    for i in 0..size {
        let colour = stone_of(line, i);
        t = answer(t, word(line.stone(i)) == colour as u32);
        built = with_stone(built, i, colour);
        cleared = without_stone(cleared, i, colour);
    }
    t = answer(t, built == line);
    let empty = Line {
        blacks: 0,
        whites: 0,
        size,
    };
    answer(t, cleared == empty)
}

// The first `size` cells without those of a mask.
fn others(mask: u16, size: u8) -> u16 {
    if size == 0 {
        return 0;
    }
    if size > 16 {
        return !mask;
    }
    !mask & (0xffff >> (16 - size))
}

// The starts of all windows.
fn windows_of(size: u8) -> u16 {
    if size < 4 { 0 } else { others(0, size - 4) }
}

fn with_stone(line: Line, i: u8, colour: u8) -> Line {
    if colour == 0 {
        line
    } else {
        made(line.put(i, colour))
    }
}

fn without_stone(line: Line, i: u8, colour: u8) -> Line {
    if colour == 0 {
        line
    } else {
        made(line.remove(i))
    }
}

// For a refusal a line with no cells, which no record has.
fn made(line: Result<Line, Refusal>) -> Line {
    line.unwrap_or(Line {
        blacks: 0,
        whites: 0,
        size: 0,
    })
}
