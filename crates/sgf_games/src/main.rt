// Games from moves text to SGF and back: a game on standard input, points with commas between them, is written to standard output as SGF
// text; with the argument `--back` an SGF text is written as moves text. A refusal is `refused N` on standard error, and nothing on
// standard output.
#![tactic(auto)]

use display::write_points;
use lent::head;
use program::{is_cut_short, is_word, read_full, refuse, say, text_room, word_count};
use rules::Refusal;
use sgf::{from_sgf, to_sgf};
use text::read_points;

fn main(rt: HostRuntime) {
    let words = word_count(&rt);
    if words < 2 {
        convert(&rt, false);
        return;
    }
    if words == 2 && is_word(&rt, 1, b"--back") {
        convert(&rt, true);
        return;
    }
    say(&rt, "usage: sgf_games [--back]\n");
}

fn convert<R: Input + Print + Eprint>(rt: &R, back: bool) {
    let mut bytes = text_room();
    let n = read_full(rt, &mut bytes);
    if is_cut_short(rt, n, 4097) {
        say(rt, "sgf: standard input cannot be read\n");
        return;
    }
    let text = head(&bytes, n);
    let mut out = [0u8; 1364];
    let written = if back {
        moves_text(text, &mut out)
    } else {
        sgf_text(text, &mut out)
    };
    match written {
        Ok(len) => write_line(rt, head(&out, len)),
        Err(refusal) => refuse(rt, refusal as u8),
    }
}

// Moves text as SGF.
fn sgf_text(text: &[u8], out: &mut [u8]) -> Result<usize, Refusal> {
    let mut codes = text_room();
    let count = read_points(text, &mut codes)?;
    let len = to_sgf(head(&codes, count as usize), out)?;
    Ok(len as usize)
}

// SGF as moves text. A game without moves is an empty line. A point has three bytes at most, and a comma behind it.
fn moves_text(text: &[u8], out: &mut [u8]) -> Result<usize, Refusal> {
    let mut codes = [0u8; 225];
    let count = from_sgf(text, &mut codes)?;
    write_points(head(&codes, count as usize), out)
}

fn write_line<R: Print + Eprint>(rt: &R, bytes: &[u8]) {
    if rt.write_all(bytes).is_ok() && rt.write_all(b"\n").is_ok() {
        return;
    }
    say(rt, "sgf: standard output cannot be written\n");
}
