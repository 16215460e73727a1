// What a replay writes: the first records that differ, then a line for each letter, and at last whether all agree.
ghost use Rattle.std.specs.Prelude.{◌<◌};

use super::byte_at;
use super::tally::sum;

pub fn say<R: Print>(rt: &R, words: &[u8]) {
    let _ = rt.write_all(words);
}

pub fn say_number<R: Print>(rt: &R, n: u64) {
    let _ = rt.print(n);
}

// A record of which some answers differ, where fewer than three such were written before.
pub(crate) fn show<R: Print>(rt: &R, record: &[u8], differ: u32, before: u64) {
    if differ != 0 && before < 3 {
        say(rt, record);
        say(rt, b"\n");
    }
}

// The lines of the letters, of which there are 15 at the most; one for what is no record, where there is some; and the last line.
pub fn say_counts<R: Print>(rt: &R, letters: &[u8], counts: &[u64; 64]) {
    let mut differ = counts[62];
    for k in 0..15 {
        differ = say_row(rt, differ, byte_at(letters, k), counts, k);
    }
    say_unread(rt, counts[60]);
    say_verdict(rt, differ);
}

// The line of a letter, and how many answers differ with those before. Past the last letter, where it is 0, stands what is no record.
fn say_row<R: Print>(rt: &R, differ: u64, letter: u8, counts: &[u64; 64], k: usize) -> u64
    requires { k < 15 }
{
    let row = 4 * k;
    if letter == 0 {
        say_unread(rt, counts[row]);
        return sum(differ, counts[row + 2]);
    }
    let (records, answers, differing) = (counts[row], counts[row + 1], counts[row + 2]);
    let letter = letter as char;
    let _ = println!(rt; "{letter} {records} records {answers} answers {differing} differ");
    sum(differ, differing)
}

fn say_unread<R: Print>(rt: &R, lines: u64) {
    if lines == 0 {
        return;
    }
    let _ = println!(rt; "{lines} lines are no records");
}

fn say_verdict<R: Print>(rt: &R, differ: u64) {
    if differ == 0 {
        say(rt, b"all agree\n");
        return;
    }
    let _ = println!(rt; "{differ} differ");
}
