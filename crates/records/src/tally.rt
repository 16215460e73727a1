// What a replay counts: the answers of a record, and for each letter its records.
ghost use Rattle.std.specs.Prelude.{◌≡◌, ◌+◌, ◌*◌, min, get_or};
ghost use Rattle.records.specs.Records.{byte_at};
ghost use Rattle.records.specs.Tallies.{total, after_answer, added, after_record, count_row};

use super::report::show;
use super::{byte_at, find_from};

// The answers of a record are counted in one number: those that were compared in its low half, those of them that differ in its high half.
// No record has 65,536.
#[tactic(auto, unfolding(crate::specs::Tallies::after_answer))]
pub fn answer(t: u32, agrees: bool) -> u32
    ensures { result ≡ after_answer t agrees }
{
    if 4294836224 < t {
        return t;
    }
    if agrees { t + 1 } else { t + 65537 }
}

// One record more, with its answers, in the row of its letter: how many records, answers and answers that differ there are, and how many
// records with such a one, of which the first three are written. A comment is no record.
#[tactic(auto, unfolding(crate::specs::Tallies::after_record, crate::specs::Tallies::record_counted))]
pub fn count<R: Print>(rt: &R, counts: &mut [u64; 64], letters: &[u8], record: &[u8], t: u32)
    ensures { counts.new ≡ after_record counts.old letters.now (byte_at «record».now 0) t }
{
    let letter = byte_at(record, 0);
    if letter == b'#' {
        return;
    }
    let row = row_of(letters, letter);
    let differ = t / 65536;
    show(rt, record, differ, counts[row + 3]);
    add(counts, row, 1);
    add(counts, row + 1, (t % 65536) as u64);
    add(counts, row + 2, differ as u64);
    add(counts, row + 3, at_most_one(differ));
}

// Where the four counts of a letter stand. What is no letter of a record has the four behind the last letter's.
fn row_of(letters: &[u8], letter: u8) -> usize
    ensures { result ≡ count_row letters.now letter }
{
    4 * find_from(letters, 0, letter).min(15)
}

pub fn at_most_one(n: u32) -> u64
    ensures { result ≡ min n 1 }
{
    n.min(1) as u64
}

#[tactic(auto, unfolding(crate::specs::Tallies::added))]
fn add(counts: &mut [u64; 64], at: usize, n: u64)
    ensures { counts.new ≡ added counts.old at n }
{
    if at < 64 {
        counts[at] = sum(counts[at], n);
    }
}

// A count does not wrap: it stays at the largest number.
pub fn sum(a: u64, b: u64) -> u64
    ensures { result ≡ total a b }
{
    a.saturating_add(b)
}
