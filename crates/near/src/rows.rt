// The rows through a point by the masks of the four lines: four start masks for each kind that section 5 asks about.
ghost use Rattle.std.specs.Prelude.{◌≡◌, true, not, ◌&&◌, ◌+◌};
ghost use Rattle.rules.specs.Bit.{bit, mask_of};
ghost use Rattle.near.specs.Rows.{RowsAre, seen};
ghost use Rattle.near.specs.Places.{reaching};
ghost use Rattle.near.specs.Windows.{pair_in};

use super::wide::{Windows, open_rows, over_rows, windows_of};
use super::words::{five_back, four_back, joined, outside, parted, spots};

// Where the rows through a point start: "four start masks travel together, one for each direction, zero where no line is stored".
#[derive(Clone, Copy, Debug, PartialEq, Eq)]
pub struct Rows {
    pub fours: [u16; 4],
    pub overlinings: [u16; 4],
    pub swords: [u16; 4],
    pub twos: [u16; 4],
}

// From the masks of the own stones and of the other colour's on the four lines; `black` says that the own colour is Black.
// A code over 224 is no point: what it gives are rows on lines that no board has.
pub fn rows_near(own: [u16; 4], other: [u16; 4], code: u8, black: bool) -> Rows
    ensures { RowsAre (seen black own other code) result }
{
    let off = outside(code);
    let mine = joined(own) & !off;
    rows_from(windows_of(mine, joined(other) | off, black), mine, code)
}

// The same for Black.
// stays: beside `rows_near`, and its three lines, for speed: it is the look of the referee's cycle alone, and is compiled into it as long as
// nothing else calls it. So are the two glances into the reading of games.
pub fn black_rows_near(blacks: [u16; 4], whites: [u16; 4], code: u8) -> Rows
    ensures { RowsAre (seen true blacks whites code) result }
{
    let off = outside(code);
    let mine = joined(blacks) & !off;
    rows_from(windows_of(mine, joined(whites) | off, true), mine, code)
}

// The rows that reach the point, of the windows that were scored.
pub(crate) fn rows_from(scored: Windows, mine: u64, code: u8) -> Rows
    ensures { (result.fours ≡ reaching 5 code scored.fours)
        × (result.overlinings ≡ reaching 4 code (mask_of 64 (pair_in scored.overs)))
        × (result.swords ≡ reaching 5 code scored.threes)
        × (result.twos ≡ reaching 4 code (mask_of 64 (λ k. pair_in scored.twos k && not (bit mine (k + 4))))) }
{
    let here = spots(code);
    let five = five_back(here);
    let four = four_back(here);
    Rows {
        fours: parted(scored.fours & five),
        overlinings: parted(over_rows(scored.overs) & four),
        swords: parted(scored.threes & five),
        twos: parted(open_rows(scored.twos, mine) & four),
    }
}
