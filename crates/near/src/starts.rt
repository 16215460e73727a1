// What section 5 asks of four start masks, and the walk from start to start. The number of a start is 16 times its direction, and its cell.
ghost use Rattle.std.specs.Prelude.{◌≡◌, not, ◌&&◌, cond, ◌+◌, ◌*◌, ◌<◌, eqb};
ghost use Rattle.rules.specs.Bit.{mask_of};
ghost use Rattle.rules.specs.Grid.{start_masks, starts_of, numbered, next_from};
ghost use Rattle.rules.specs.Forbidden.{some_row, more_than_one};

use super::words::{joined, parted};

// "some line has [a row] through p"
pub fn some_row(starts: [u16; 4]) -> bool
    ensures { result ≡ some_row (starts_of starts) }
{
    word_of(starts) != 0
}

// ""More than one" means starts on two lines, or on one line a set not contained in {j, j+1}." Past the first start and the next place one
// is left: starts of two lines are never next to one another, since no row starts at bit 15. The last place stands in for the first start
// where there is none, so that no branch is needed.
pub fn more_than_one(starts: [u16; 4]) -> bool
    ensures { result ≡ more_than_one (starts_of starts) }
{
    let word = word_of(starts);
    word & !(3u64 << u64::trailing_zeros(word | 1u64 << 63)) != 0
}

// The number of the first start from a number on; 64 where there is none.
// stays: no Option, since the cycle of questions keeps this number in its state, from which it goes on by a plain comparison.
pub fn next_start(starts: [u16; 4], from: u8) -> u8
    ensures { result ≡ next_from (numbered (starts_of starts)) from }
{
    if 64 <= from {
        return 64;
    }
    let rest = word_of(starts) >> from;
    if rest == 0 {
        return 64;
    }
    from + (u64::trailing_zeros(rest) as u8)
}

// The starts with that of a number put in or taken out. A number over 63 is no start's.
pub fn set_start(starts: [u16; 4], number: u8, on: bool) -> [u16; 4]
    ensures { result ≡ start_masks (λ d j. cond (eqb (16 * d + j) number) on (starts_of starts d j)) }
{
    let word = word_of(starts);
    if 64 <= number {
        return parted(word);
    }
    if on {
        return parted(word | 1u64 << number);
    }
    parted(word & !(1u64 << number))
}

// The starts that the second masks have not.
pub fn other_starts(starts: [u16; 4], taken: [u16; 4]) -> [u16; 4]
    ensures { result ≡ start_masks (λ d j. starts_of starts d j && not (starts_of taken d j)) }
{
    parted(word_of(starts) & !word_of(taken))
}

// All four lines' starts by their numbers.
fn word_of(starts: [u16; 4]) -> u64
    ensures { result ≡ mask_of 64 (numbered (starts_of starts)) }
{
    joined(starts) & 0x7FFF7FFF7FFF7FFF
}
