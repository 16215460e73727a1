// The records of a replay, read from standard input.
ghost use Rattle.std.specs.Prelude.{◌≡◌, ◌≤◌, length, take};

use super::report::say;
use program::read_full;

// Room for all the records. The `ensures` gives the length, which lending the array as a slice needs.
pub fn room() -> [u8; 262144]
    ensures { 262144 ≡ length result }
{
    [0; 262144]
}

// How many bytes were read. Where there are more than there is room for it says so, and there are none.
pub fn read_records<R: Input + Print>(rt: &R, text: &mut [u8]) -> usize
    ensures in_bounds { result ≤ length text.new }
    ensures taken { result ≡ length (take result text.new) }
{
    let n = read_full(rt, text);
    if n == text.len() {
        say(rt, b"more than there is room for\n");
        return 0;
    }
    n
}
