// Mends a hand-typed move list: a comma list on standard input; on standard output the moves that are kept, then the number of the first
// item that slips and its reason. A text that is refused is `refused N` alone.
#![tactic(auto)]

use lent::head;
use mending::write_mended;
use program::{is_cut_short, read_full, refuse_on_output, say, text_room, write};

fn main(rt: HostRuntime) {
    let mut text = text_room();
    let n = read_full(&rt, &mut text);
    if is_cut_short(&rt, n, 4097) {
        say(&rt, "mend: standard input cannot be read\n");
        return;
    }
    mend(&rt, head(&text, n));
}

// There is room for both lines of any text, so that 13 does not arise.
fn mend<R: Print + Eprint>(rt: &R, text: &[u8]) {
    let mut out = [0u8; 1152];
    match write_mended(text, &mut out) {
        Ok(n) => write(
            rt,
            head(&out, n as usize),
            "mend: standard output cannot be written\n",
        ),
        Err(refusal) => refuse_on_output(rt, refusal as u8),
    }
}
