// The questions about a line alone that the host answers, each past its bounds.
use line::Line;
use records::{answer, refusal_word};
use renju::{renju_line_eyes, renju_line_starts, renju_line_starts_on};
use rules::Refusal;

// What is refused, each beside all that comes after it: a size that no line has, two stones on a cell, no colour, no kind, no cell.
pub(crate) fn replay_refusals(before: u32, line: Line) -> u32 {
    let blacks = line.blacks;
    let whites = line.whites;
    let size = line.size;
    let mut t = replay_refusal(before, blacks | 1, whites | 1, 4, 0, 8, Refusal::NoPlace);
    t = replay_refusal(t, blacks | 1, whites | 1, 16, 0, 8, Refusal::NoPlace);
    t = replay_refusal(t, blacks | 1, whites | 1, size, 0, 8, Refusal::Unsound);
    t = replay_refusal(t, blacks, whites, size, 3, 0, Refusal::NoNumber);
    t = replay_refusal(t, blacks, whites, size, 1, 8, Refusal::NoNumber);
    answer(
        t,
        renju_line_starts_on(blacks, whites, size, 1, 0, size)
            == refusal_word(Refusal::NoPlace as u8),
    )
}

// No line has a cell 15.
fn replay_refusal(
    before: u32,
    blacks: u16,
    whites: u16,
    size: u8,
    colour: u8,
    kind: u8,
    refusal: Refusal,
) -> u32 {
    let word = refusal_word(refusal as u8);
    let mut t = answer(
        before,
        renju_line_starts(blacks, whites, size, colour, kind) == word,
    );
    t = answer(
        t,
        renju_line_starts_on(blacks, whites, size, colour, kind, 15) == word,
    );
    answer(
        t,
        renju_line_eyes(blacks, whites, size, colour, kind) == word,
    )
}
