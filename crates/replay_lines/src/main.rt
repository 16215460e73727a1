// Replays recorded answers about lines, read from standard input: asks each question again and holds the answer to the record. Writes what
// `records` says of a replay.
#![tactic(auto)]

mod asked;
mod fields;
mod line_cells;
mod lines;
mod segments;

use line_cells::replay_cell;
use lines::{replay_eyes, replay_line, replay_number};
use records::{answer, byte_at, count, line_at, next_line, read_records, room, say_counts};
use segments::replay_segment;

fn main(rt: HostRuntime) {
    let mut text = room();
    let n = read_records(&rt, &mut text);
    replay_all(&rt, &text[..n]);
}

fn replay_all<R: Print>(rt: &R, text: &[u8]) {
    let mut counts = [0u64; 64];
    let mut at = 0;
    // stays: where the next record begins is known once the end of this one's line is found
    while at < text.len() {
        let record = line_at(text, at);
        count(rt, &mut counts, b"lcqzg", record, replay(record));
        at = next_line(text, at);
    }
    say_counts(rt, b"lcqzg", &counts);
}

// A record that is not as long as its letter's are is not read, and differs.
fn replay(record: &[u8]) -> u32 {
    let letter = byte_at(record, 0);
    if record.len() != width_of(letter) {
        return answer(0, false);
    }
    match letter {
        b'l' => replay_line(record),
        b'c' => replay_cell(record),
        b'q' => replay_number(record),
        b'z' => replay_eyes(record),
        b'g' => replay_segment(record),
        _ => answer(0, false),
    }
}

// How many bytes a record of a letter has, 0 for any other byte.
fn width_of(letter: u8) -> usize {
    match letter {
        b'l' => 180,
        b'c' => 97,
        b'q' => 35,
        b'z' => 27,
        b'g' => 59,
        _ => 0,
    }
}
