// Recorded answers: their lines and fields, read from bytes, and what a replay of them counts and writes. Past the end every byte counts
// as 0.
#![tactic(auto)]

mod answers;
mod bytes;
mod input;
mod report;
mod tally;

ghost use Rattle.std.specs.Prelude.{◌≡◌, ◌+◌, ◌≤◌, min};
ghost use Rattle.std.specs.Int.Count.{ones};
ghost use Rattle.records.specs.Records.{byte_at, digit_of, hex_of, place_from, line_end, line_at};

pub use answers::{Value, refusal_word, word};
pub use bytes::{bytes_in, bytes_of, cells_of, has_form, holds, with_cell};
pub use input::{read_records, room};
pub use report::{say, say_counts, say_number};
pub use tally::{answer, at_most_one, count, sum};

pub fn byte_at(s: &[u8], i: usize) -> u8
    ensures { result ≡ byte_at s.now i }
{
    if i < s.len() { s[i] } else { 0 }
}

// The number that lower-case hex digits spell from place `at` on: so many of them, at most four. A byte that is no digit counts as 0.
pub fn hex(s: &[u8], at: usize, digits: u8) -> u16
    ensures { result ≡ hex_of s.now at digits }
{
    let mut v = 0u16;
    for k in 0..digits.min(4) {
        v = v * 16 + digit(byte_after(s, at, k));
    }
    v
}

// The byte that the two digits at a place spell.
pub fn byte(s: &[u8], at: usize) -> u8
    ensures { result ≡ hex_of s.now at 2 }
{
    hex(s, at, 2) as u8
}

// The place of the first byte d at or after `from`, or the length.
pub fn find_from(s: &[u8], from: usize, d: u8) -> usize
    ensures { result ≡ place_from s.now from d }
{
    for i in from..s.len() {
        if s[i] == d {
            return i;
        }
    }
    s.len()
}

fn line_end(s: &[u8], from: usize) -> usize
    ensures { result ≡ line_end s.now from }
{
    find_from(s, from, b'\n')
}

// The bytes from a place to the end of its line.
#[tactic(auto, unfolding(crate::specs::Records::line_at))]
pub fn line_at(s: &[u8], at: usize) -> &[u8]
    ensures { result.now ≡ line_at s.now at }
{
    let end = line_end(s, at);
    if at <= end {
        return &s[at..end];
    }
    &s[..0]
}

// The place behind the end of a place's line.
pub fn next_line(s: &[u8], at: usize) -> usize
    ensures { result ≡ line_end s.now at + 1 }
{
    line_end(s, at) + 1
}

// How many bits a mask has.
pub fn count_bits(mask: u16) -> u8
    ensures { (result ≡ ones mask) × (result ≤ 16) }
{
    u16::count_ones(mask) as u8
}

// The byte k places after `at`, a place that can be past what a usize holds.
fn byte_after(s: &[u8], at: usize, k: u8) -> u8
    ensures { result ≡ byte_at s.now (at + k) }
{
    if at < s.len() {
        byte_at(s, at + k as usize)
    } else {
        0
    }
}

#[tactic(auto, unfolding(crate::specs::Records::digit_of))]
fn digit(b: u8) -> u16
    ensures { result ≡ digit_of b }
{
    match b {
        b'0'..=b'9' => (b - b'0') as u16,
        b'a'..=b'f' => (b - b'a' + 10) as u16,
        _ => 0,
    }
}
