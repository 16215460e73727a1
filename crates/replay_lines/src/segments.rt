// Records about a segment of a line.
use super::fields::{colour_of, kind_of, line_of};
use line::Line;
use masks::bit_at;
use records::{answer, byte, word};
use renju::renju_line_starts;
use rules::Refusal;
use segment::{Segment, matches};

// `g`: the segment's masks, then its answers for Black and for White, are recorded.
pub(crate) fn replay_segment(record: &[u8]) -> u32 {
    let line = line_of(record);
    let j = byte(record, 15);
    let Ok(segment) = line.segment(j) else {
        return answer(0, false);
    };
    let recorded = Segment::new(byte(record, 18), byte(record, 21));
    let mut t = answer(0, segment == recorded);
    t = replay_colour(t, segment, record, 1, 24);
    t = replay_colour(t, segment, record, 2, 27);
    replay_matches(t, line, j, segment)
}

// The answers about a colour, whose first field stands at a place.
fn replay_colour(before: u32, segment: Segment, record: &[u8], colour: u8, first: u8) -> u32 {
    let mut t = answer(
        before,
        score_is(segment.score(colour), field(record, first, 0)),
    );
    t = answer(
        t,
        word(segment.count(colour)) == field(record, first, 1) as u32,
    );
    t = answer(
        t,
        word(segment.is_free(colour)) == field(record, first, 2) as u32,
    );
    t = answer(
        t,
        word(segment.is_alive(colour)) == field(record, first, 3) as u32,
    );
    t = answer(
        t,
        word(segment.stone_bits(colour)) == field(record, first, 4) as u32,
    );
    answer(
        t,
        word(segment.eye_bits(colour)) == field(record, first, 5) as u32,
    )
}

// -1, the score of a dead segment, is recorded as 255.
fn score_is(answer: Result<i8, Refusal>, recorded: u8) -> bool {
    answer == Ok(recorded.cast_signed())
}

// A colour's field number k: each answer has Black's byte and White's.
fn field(record: &[u8], first: u8, k: u8) -> u8 {
    byte(record, first as usize + 6 * k as usize)
}

// Rows told by this segment and the one before it, if there is one.
fn replay_matches(t: u32, line: Line, j: u8, segment: Segment) -> u32 {
    if j == 0 {
        return replay_kinds(t, line, j, None, segment);
    }
    match line.segment(j - 1) {
        Ok(prev) => replay_kinds(t, line, j, Some(prev), segment),
        Err(_) => answer(t, false),
    }
}

// The mask of starts has bit j just where the segments match.
fn replay_kinds(before: u32, line: Line, j: u8, prev: Option<Segment>, segment: Segment) -> u32 {
    let mut t = before;
    for k in 0..16u8 {
        let matched = word(matches(prev, segment, colour_of(k), kind_of(k)));
        let starts = renju_line_starts(
            line.blacks,
            line.whites,
            line.size,
            colour_of(k),
            kind_of(k),
        );
        t = answer(t, matched == start_in(starts, j));
    }
    t
}

// 1 where a word is a mask with bit j, 0 where it is one without, and 2 for a refusal.
fn start_in(word: u32, j: u8) -> u32 {
    if 65535 < word {
        return 2;
    }
    bit_at(word as u16, j) as u32
}
