// Lists the texts of cases on standard input. A line that starts with `==` opens a case and names it; the lines below it are its text. Each
// name is written, and below it the listing of its text.
#![tactic(auto)]

ghost use Rattle.std.specs.Prelude.{◌≡◌, ◌<◌, length};

use lent::{head, tail};
use records::{byte_at, line_at, next_line, read_records, say};
use report::write_listing;

fn main(rt: HostRuntime) {
    let mut cases = room();
    let n = read_records(&rt, &mut cases);
    list_cases(&rt, &cases[..n]);
}

// Room for all the cases. The `ensures` gives the length, which lending the array as a slice needs.
fn room() -> [u8; 65536]
    ensures { 65536 ≡ length result }
{
    [0; 65536]
}

fn list_cases<R: Print>(rt: &R, cases: &[u8]) {
    let mut at = 0;
    // stays: a turn passes a case, of any length
    while at < cases.len() {
        let end = case_end(cases, at);
        say(rt, line_at(cases, at));
        say(rt, b"\n");
        list(rt, tail(head(cases, end), next_line(cases, at)));
        at = end;
    }
}

// The place of the next name, or one at or past the end.
fn case_end(cases: &[u8], at: usize) -> usize
    requires { at < length cases.now }
    ensures { at < result }
{
    let mut i = next_line(cases, at);
    // stays: a turn passes a line, of any length
    while i < cases.len() {
        if is_name(cases, i) {
            return i;
        }
        i = next_line(cases, i);
    }
    i
}

fn is_name(cases: &[u8], at: usize) -> bool {
    byte_at(cases, at) == b'=' && byte_at(tail(cases, at), 1) == b'='
}

fn list<R: Print>(rt: &R, text: &[u8]) {
    let mut out = [0u8; 4096];
    match write_listing(text, &mut out) {
        Ok(n) => say(rt, head(&out, n)),
        // 13, which does not arise: no listing is longer than 3,840 bytes
        Err(_) => say(rt, b"too long\n"),
    }
}
