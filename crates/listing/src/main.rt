// Lists the forbidden points of the board whose text stands on standard input, as section 7 says: each with its kind, then the count; or
// the refusal.
#![tactic(auto)]

use lent::head;
use program::{is_cut_short, read_full, say, text_room, write};
use report::write_listing;

fn main(rt: HostRuntime) {
    let mut text = text_room();
    let n = read_full(&rt, &mut text);
    if is_cut_short(&rt, n, 4097) {
        say(&rt, "listing: standard input cannot be read\n");
        return;
    }
    list(&rt, &text[..n]);
}

fn list<R: Print + Eprint>(rt: &R, text: &[u8]) {
    let mut out = [0u8; 4096];
    // a refusal, 13, does not arise: no listing is longer than 3,840 bytes
    if let Ok(n) = write_listing(text, &mut out) {
        write(
            rt,
            head(&out, n),
            "listing: standard output cannot be written\n",
        );
    }
}
