// A glance at a point, for the reading of games: what it asks of the rows there, where their start masks are not handed on. Each function
// has one caller, into which it is compiled, so that nothing of it travels through memory.
ghost use Rattle.std.specs.Prelude.{◌≡◌, true, false};
ghost use Rattle.rules.specs.Forbidden.{some_row};
ghost use Rattle.rules.specs.declared.RowKind.TheVariants.{Four};
ghost use Rattle.near.specs.Rows.{seen, may_apply};

use super::rows::rows_from;
use super::starts::{more_than_one, some_row};
use super::wide::windows_of;
use super::words::{joined, outside};

// Whether some Four goes through the point, and whether some kind may apply there.
#[derive(Clone, Copy, Debug, PartialEq, Eq)]
pub struct Glance {
    pub four: bool,
    pub may: bool,
}

// Black's, from the masks of the black stones and of the white ones on the four lines. A code over 224 is no point, here and below.
pub fn black_glance_near(blacks: [u16; 4], whites: [u16; 4], code: u8) -> Glance
    ensures { (result.four ≡ some_row (seen true blacks whites code Four)) × (result.may ≡ may_apply (seen true blacks whites code)) }
{
    let off = outside(code);
    let mine = joined(blacks) & !off;
    let rows = rows_from(windows_of(mine, joined(whites) | off, true), mine, code);
    // all three are asked and joined by `|`, so that no branch is needed
    let overline = some_row(rows.overlinings);
    let double_four = more_than_one(rows.swords);
    let double_two = more_than_one(rows.twos);
    Glance {
        four: some_row(rows.fours),
        may: overline | double_four | double_two,
    }
}

// White's, to whom nothing is forbidden: whether some Four goes through the point.
pub fn white_four_near(whites: [u16; 4], blacks: [u16; 4], code: u8) -> bool
    ensures { result ≡ some_row (seen false whites blacks code Four) }
{
    let off = outside(code);
    let mine = joined(whites) & !off;
    let rows = rows_from(windows_of(mine, joined(blacks) | off, false), mine, code);
    some_row(rows.fours)
}
