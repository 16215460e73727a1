// Four masks as one word of 64 places: place 16d + j is bit j of mask d, so that what is done to the word is done to four lines at once.
ghost use Rattle.std.specs.Prelude.{◌≡◌, ◌+◌, ◌*◌, eqb, leb};
ghost use Rattle.rules.specs.Tools.{any_below, tab};
ghost use Rattle.rules.specs.Bit.{bit, mask_of};
ghost use Rattle.rules.specs.Point.{line_no, cell_no, line_size};
ghost use Rattle.near.specs.Places.{place_in, past_end, spot_at};

use point::{cell_no, line_no, line_size};

// Four masks, one behind the other.
pub(crate) fn joined(masks: [u16; 4]) -> u64
    ensures { result ≡ mask_of 64 (place_in masks) }
{
    let [vertical, horizontal, ascending, descending] = masks;
    vertical as u64
        | (horizontal as u64) << 16
        | (ascending as u64) << 32
        | (descending as u64) << 48
}

// And back.
pub(crate) fn parted(word: u64) -> [u16; 4]
    ensures { result ≡ tab 4 (λ d. mask_of 16 (λ j. bit word (16 * d + j))) }
{
    [low(word), low(word >> 16), low(word >> 32), low(word >> 48)]
}

// The first 16 places.
fn low(word: u64) -> u16
    ensures { result ≡ mask_of 16 (bit word) }
{
    (word & 65535) as u16
}

// Where the lines through a point have no cell: past their last ones. A line has at most 15, so one such place parts each line from the
// next.
pub(crate) fn outside(code: u8) -> u64
    ensures { result ≡ mask_of 64 (past_end code) }
{
    joined([
        past_end(0, code),
        past_end(1, code),
        past_end(2, code),
        past_end(3, code),
    ])
}

// .. of the line in one direction.
fn past_end(d: u8, code: u8) -> u16
    ensures { result ≡ mask_of 16 (leb (line_size d (line_no d code))) }
{
    65535u16 << line_size(d, line_no(d, code))
}

// The point itself, on each line.
pub(crate) fn spots(code: u8) -> u64
    ensures { result ≡ mask_of 64 (spot_at code) }
{
    joined([
        spot_in(0, code),
        spot_in(1, code),
        spot_in(2, code),
        spot_in(3, code),
    ])
}

// .. on the line in one direction.
fn spot_in(d: u8, code: u8) -> u16
    ensures { result ≡ mask_of 16 (λ j. eqb j (cell_no d code)) }
{
    low(1u64 << cell_no(d, code))
}

// Where a row whose four cells hold the point can start: at its own place and the three before it. (A place before a line's first cell
// lies at the end of the line before, where no row starts.)
pub(crate) fn four_back(spots: u64) -> u64
    ensures { result ≡ mask_of 64 (λ k. any_below 4 (λ i. bit spots (k + i))) }
{
    spots | spots >> 1 | spots >> 2 | spots >> 3
}

// .. of a row of five cells.
pub(crate) fn five_back(spots: u64) -> u64
    ensures { result ≡ mask_of 64 (λ k. any_below 5 (λ i. bit spots (k + i))) }
{
    four_back(spots) | spots >> 4
}
