// A hint: reads a board's text on standard input and writes a line of fours with which one side, to move, wins against every reply, as points
// (`D8,E8,I4`), or `no line`. Black's, or with the argument `--white` White's; `--limit N` allows N attacks, 1 to 6, else 6. A refusal is
// `refused N` on standard error, and nothing on standard output.
#![tactic(auto)]

use display::write_points;
use hint::win_plan_of;
use lent::head;
use program::{is_cut_short, is_word, read_full, refuse, say, text_room, word_count, write};
use rules::{Player, Refusal};
use std::rt::Env;
use text::read_cells;

// What the arguments ask for: a side, to move, and how many attacks it may make.
#[derive(Clone, Copy)]
struct Asked {
    side: Player,
    limit: u8,
}

fn main(rt: HostRuntime) {
    match words_asked(&rt) {
        Some(asked) => hint(&rt, asked),
        None => say(&rt, "usage: hints [--white] [--limit N]\n"),
    }
}

// `--white`, then `--limit` and a number of one digit, each if it is there, and nothing else. The program's own name is counted too.
fn words_asked<R: Env>(rt: &R) -> Option<Asked> {
    let words = word_count(rt);
    let white = words > 1 && is_word(rt, 1, b"--white");
    let side = if white { Player::White } else { Player::Black };
    // the number of the next word
    let next = if white { 2 } else { 1 };
    if words <= next {
        return Some(Asked { side, limit: 6 });
    }
    if words == next + 2 && is_word(rt, next, b"--limit") {
        return Some(Asked {
            side,
            limit: digit_word(rt, next + 1),
        });
    }
    None
}

// The number of a word of one digit; 0, which is no limit, for any other.
fn digit_word<R: Env>(rt: &R, number: usize) -> u8 {
    let mut word = [0u8; 2];
    match rt.arg(number, &mut word) {
        Ok(1) => digit(word[0]),
        _ => 0,
    }
}

// .. of a byte, 0 where it is no digit.
fn digit(byte: u8) -> u8 {
    match byte {
        b'0'..=b'9' => byte - b'0',
        _ => 0,
    }
}

fn hint<R: Input + Print + Eprint>(rt: &R, asked: Asked) {
    let mut text = text_room();
    let n = read_full(rt, &mut text);
    if is_cut_short(rt, n, 4097) {
        say(rt, "hints: standard input cannot be read\n");
        return;
    }
    let mut line = [0u8; 11];
    match line_of(head(&text, n), asked, &mut line) {
        Ok(count) => write_line(rt, head(&line, count as usize)),
        Err(refusal) => refuse(rt, refusal as u8),
    }
}

// The line for the board that a text says.
fn line_of(text: &[u8], asked: Asked, line: &mut [u8]) -> Result<u16, Refusal> {
    let cells = read_cells(text)?;
    win_plan_of(&cells, asked.side.number(), asked.limit, line)
}

fn write_line<R: Print + Eprint>(rt: &R, codes: &[u8]) {
    if codes.is_empty() {
        give(rt, b"no line\n");
        return;
    }
    let mut out = [0u8; 64];
    // 13, which does not arise: eleven points are at most 43 bytes
    if let Ok(n) = write_points(codes, &mut out) {
        give(rt, head(&out, n));
        give(rt, b"\n");
    }
}

fn give<R: Print + Eprint>(rt: &R, bytes: &[u8]) {
    write(rt, bytes, "hints: standard output cannot be written\n");
}
