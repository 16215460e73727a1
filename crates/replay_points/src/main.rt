// Replays recorded answers about points and the keys of lines, read from standard input: asks each question again and holds the answer to
// the record. Writes what `records` says of a replay.
#![tactic(auto)]

mod points;

use points::{replay_address, replay_cell, replay_key};
use records::{answer, byte_at, count, line_at, next_line, read_records, room, say_counts};

fn main(rt: HostRuntime) {
    let mut text = room();
    let n = read_records(&rt, &mut text);
    replay_all(&rt, &text[..n]);
}

fn replay_all<R: Print>(rt: &R, text: &[u8]) {
    let mut counts = [0u64; 64];
    let mut at = 0;
    while at < text.len() {
        let record = line_at(text, at);
        count(rt, &mut counts, b"avw", record, replay(record));
        at = next_line(text, at);
    }
    say_counts(rt, b"avw", &counts);
}

// A record that is not as long as its letter's are is not read, and differs.
fn replay(record: &[u8]) -> u32 {
    let letter = byte_at(record, 0);
    if record.len() != width_of(letter) {
        return answer(0, false);
    }
    match letter {
        b'a' => replay_address(record),
        b'v' => replay_key(record),
        b'w' => replay_cell(record),
        _ => answer(0, false),
    }
}

// How many bytes a record of a letter has, 0 for any other byte.
fn width_of(letter: u8) -> usize {
    match letter {
        b'a' => 19,
        b'v' => 10,
        b'w' => 13,
        _ => 0,
    }
}
