// Replays recorded answers about texts, read from standard input: asks each question again and holds the answer to the record. Writes
// what `records` says of a replay. The answers are the original's, but under `T` and `L`, the texts that request 5 speaks of, and under
// `M` and `C`, what request 13 makes of texts with no slash and no comma: one move, and stones text. `c` has the original's of these.
#![tactic(auto)]

mod fields;
mod lines;
mod points;
mod reading;
mod words;
mod writing;

use fields::is_whole;
use lines::{replay_line, replay_read_line, replay_segment};
use points::{replay_list, replay_listed, replay_point};
use reading::{replay_converted, replay_diagram, replay_text};
use records::{answer, byte_at, count, line_at, next_line, read_records, room, say_counts};

fn main(rt: HostRuntime) {
    let mut text = room();
    let n = read_records(&rt, &mut text);
    replay_all(&rt, &text[..n]);
}

fn replay_all<R: Print>(rt: &R, text: &[u8]) {
    let mut counts = [0u64; 64];
    let mut at = 0;
    // stays: a turn passes a line, of any length
    while at < text.len() {
        let record = line_at(text, at);
        count(rt, &mut counts, b"tTcMCdDypLPiIg", record, replay(record));
        at = next_line(text, at);
    }
    say_counts(rt, b"tTcMCdDypLPiIg", &counts);
}

// A record that is not well formed is not asked about, and differs.
fn replay(record: &[u8]) -> u32 {
    if !is_whole(record) {
        return answer(0, false);
    }
    match byte_at(record, 0) {
        b't' | b'T' | b'M' => replay_text(false, record),
        b'c' => replay_text(true, record),
        b'C' => replay_converted(record),
        b'd' => replay_diagram(record, 0),
        b'D' => replay_diagram(record, 5),
        b'y' => replay_point(record),
        b'p' | b'L' => replay_list(record),
        b'P' => replay_listed(record),
        b'i' => replay_read_line(record),
        b'I' => replay_line(record),
        b'g' => replay_segment(record),
        _ => answer(0, false),
    }
}
