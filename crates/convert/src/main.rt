// Converts a saved diagram: its text on standard input, its stones text and byte 10 on standard output. A refusal is `refused N` on standard
// error, and nothing on standard output.
#![tactic(auto)]

use diagrams::convert_diagram;
use lent::{Kept, head};
use program::{is_cut_short, read_full, refuse, say, text_room, write};

fn main(rt: HostRuntime) {
    let mut text = text_room();
    let n = read_full(&rt, &mut text);
    if is_cut_short(&rt, n, 4097) {
        say(&rt, "convert: standard input cannot be read\n");
        return;
    }
    convert(&rt, head(&text, n));
}

// No stones text is longer than 2,251 bytes, so 13 does not arise.
fn convert<R: Print + Eprint>(rt: &R, text: &[u8]) {
    let mut out = [0u8; 2251];
    match convert_diagram(text, &mut out) {
        Ok(len) => {
            let mut lines = Kept::<2252>::new();
            lines.keep(head(&out, len as usize));
            lines.keep(b"\n");
            write(
                rt,
                lines.as_slice(),
                "convert: standard output cannot be written\n",
            );
        }
        Err(refusal) => refuse(rt, refusal as u8),
    }
}
