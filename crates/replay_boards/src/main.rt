// Replays recorded answers about boards, read from standard input: asks each question again and holds the answer to the record. Writes what
// `records` says of a replay. The answers are the original's; under `S`, `P` and `F`, where request 6 answers otherwise, the original's is
// shown behind the one that is replayed.
#![tactic(auto)]

mod asked;
mod boards;
mod changes;
mod listed;
mod starts;
mod verdicts;
mod views;

use boards::replay_board;
use lent::{head, tail};
use listed::replay_list;
use records::{
    answer, byte_at, cells_of, count, find_from, line_at, read_records, room, say_counts,
};
use verdicts::replay_verdicts;

fn main(rt: HostRuntime) {
    let mut text = room();
    let n = read_records(&rt, &mut text);
    replay_all(&rt, &text[..n]);
}

// Each record is asked of the board whose record is the last before it.
fn replay_all<R: Print>(rt: &R, text: &[u8]) {
    let mut counts = [0u64; 64];
    let mut block = line_at(text, 0);
    for line in text.split_inclusive(|&byte| byte == b'\n') {
        let record = line.strip_suffix(b"\n").unwrap_or(line);
        if byte_at(record, 0) == b'b' {
            block = record;
        }
        count(
            rt,
            &mut counts,
            b"bsSpPfFkmroen",
            record,
            replay(block, record),
        );
    }
    say_counts(rt, b"bsSpPfFkmroen", &counts);
}

fn replay(block: &[u8], record: &[u8]) -> u32 {
    let cells = cells_of(tail(block, 2));
    match byte_at(record, 0) {
        b'b' => replay_board(cells),
        b's' | b'p' => replay_verdicts(cells, record),
        b'S' | b'P' => replay_verdicts(cells, first_answer(record)),
        b'f' => replay_list(cells, record, 2, 2),
        b'F' => replay_list(cells, first_answer(record), 2, 2),
        b'k' => replay_list(cells, record, 5, 1),
        b'm' => replay_list(cells, record, 2, 1),
        b'r' => replay_list(cells, record, 8, 4),
        b'o' => replay_list(cells, record, 11, 4),
        b'e' => replay_list(cells, record, 8, 1),
        b'n' => replay_list(cells, record, 11, 1),
        _ => answer(0, false),
    }
}

// A record that shows two answers, without the second.
fn first_answer(record: &[u8]) -> &[u8] {
    head(record, find_from(record, 2, b' '))
}
