// Stored games from one form to the other: a game on standard input, one code byte a move, is written to standard output in tagged form;
// with the argument `--back` a record is taken back. A refusal is `refused N` on standard error, and nothing on standard output.
#![tactic(auto)]

ghost use Rattle.std.specs.Prelude.{◌≡◌, length};

use lent::head;
use program::{is_cut_short, is_word, read_full, refuse, say, word_count, write};
use rules::Refusal;
use stored::{from_tagged, old_to_tagged};

fn main(rt: HostRuntime) {
    let words = word_count(&rt);
    if words < 2 {
        convert(&rt, false);
        return;
    }
    if words == 2 && is_word(&rt, 1, b"--back") {
        convert(&rt, true);
        return;
    }
    say(&rt, "usage: tagged [--back]\n");
}

// A byte more than the longest record can have whose length agrees, 7 and 65,535: what is longer is refused by its length alone, whatever
// follows. The `ensures` gives the length, which lending the array as a slice needs.
fn room() -> [u8; 65543]
    ensures { 65543 ≡ length result }
{
    [0; 65543]
}

fn convert<R: Input + Print + Eprint>(rt: &R, back: bool) {
    let mut bytes = room();
    let n = read_full(rt, &mut bytes);
    if is_cut_short(rt, n, 65543) {
        say(rt, "tagged: standard input cannot be read\n");
        return;
    }
    let mut out = [0u8; 232];
    match converted(back, head(&bytes, n), &mut out) {
        Ok(len) => {
            write(
                rt,
                head(&out, len as usize),
                "tagged: standard output cannot be written\n",
            );
        }
        Err(refusal) => refuse(rt, refusal as u8),
    }
}

fn converted(back: bool, bytes: &[u8], out: &mut [u8]) -> Result<u16, Refusal> {
    if back {
        from_tagged(bytes, out)
    } else {
        old_to_tagged(bytes, out)
    }
}
