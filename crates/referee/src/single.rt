// One point of a board given as cell bytes: only the four lines through it are read, unless there may be a trial.
ghost use Rattle.std.specs.Prelude.{◌≡◌, ◌||◌, cond, ◌+◌, ◌*◌, ◌≤◌, ◌<◌, eqb, get_or};
ghost use Rattle.rules.specs.Bit.{digit, mask_of};
ghost use Rattle.rules.specs.Point.{line_no};
ghost use Rattle.rules.specs.Grid.{stone_at, starts_of};
ghost use Rattle.rules.specs.Forbidden.{strict_of, some_row, more_than_one, black_rows};
ghost use Rattle.rules.specs.declared.Player.TheVariants.{Black, White};
ghost use Rattle.near.specs.Rows.{RowsAre};
ghost use Rattle.lent.specs.Lists.{zeros};
ghost use Rattle.grid.specs.Lines.{lines_of};
ghost use Rattle.cells.specs.Cells.{Cells};

use super::cycle::strict_by;
use grid::lines_by;
use near::{Rows, more_than_one, rows_near, some_row};
use point::{Table, cell_no, line_no, line_size, step_in};
use rules::{Code, Verdict};

// The masks of one line.
#[derive(Clone, Copy)]
struct LineCells {
    blacks: u16,
    whites: u16,
}

// The strict verdict. Where no kind may apply it is none: that is seen first, so that neither the table nor room for lines is laid out.
pub(crate) fn strict_of(cells: &[u8], code: Code) -> Verdict
    requires { Cells cells.now }
    ensures { result ≡ strict_of cells.now code }
{
    let p = code.get();
    if cells[p as usize] != 0 {
        return Verdict::None;
    }
    let rows = rows_of(cells, code);
    if may_forbid(rows) {
        let table = Table::new();
        return asked_of(cells, &table, code, rows);
    }
    Verdict::None
}

// .. at an empty point, by Black's rows through it. Lines are built only where more than one Two may lead to a trial, by the table that the
// trial then reads.
pub(crate) fn asked_of(cells: &[u8], table: &Table, code: Code, rows: Rows) -> Verdict
    requires { Cells cells.now × (get_or cells.now code 0 ≡ 0) × RowsAre (black_rows cells.now code) rows }
    ensures { result ≡ strict_of cells.now code }
{
    let mut lines = lines_if(more_than_one(rows.twos), cells, table);
    strict_by(&mut lines, table, code, rows)
}

// The stored lines, where they are wanted.
pub(crate) fn lines_if(wanted: bool, cells: &[u8], table: &Table) -> [u16; 144]
    ensures { result ≡ cond wanted (lines_of cells.now) (zeros 144) }
{
    if wanted {
        return lines_by(cells, table.numbers());
    }
    [0; 144]
}

// Whether some kind may apply, by the tests that need no nested question: where Black's rows through a point are these and none passes,
// the verdict there is none.
pub(crate) fn may_forbid(rows: Rows) -> bool
    ensures { result ≡ (some_row (starts_of rows.overlinings) || more_than_one (starts_of rows.swords)
        || more_than_one (starts_of rows.twos)) }
{
    some_row(rows.overlinings) || more_than_one(rows.swords) || more_than_one(rows.twos)
}

// Black's rows through a point of the cells.
pub(crate) fn rows_of(cells: &[u8], code: Code) -> Rows
    requires { Cells cells.now }
    ensures { RowsAre (black_rows cells.now code) result }
{
    let v = read_along(cells, 0, code);
    let h = read_along(cells, 1, code);
    let a = read_along(cells, 2, code);
    let d = read_along(cells, 3, code);
    rows_near(
        [v.blacks, h.blacks, a.blacks, d.blacks],
        [v.whites, h.whites, a.whites, d.whites],
        code.get(),
        true,
    )
}

// The stones on the line through a point in one direction, cell by cell from the last one back: each moves on what was read before it.
// Black stones are in the low half of one number, white ones in the high half.
fn read_along(cells: &[u8], d: u8, code: Code) -> LineCells
    requires { Cells cells.now × (d < 4) }
    ensures { (result.blacks ≡ mask_of 16 (stone_at Black cells.now d (line_no d code)))
        × (result.whites ≡ mask_of 16 (stone_at White cells.now d (line_no d code))) }
{
    let point = code.get();
    let size = line_size(d, line_no(d, point));
    let step = step_in(d) as usize;
    let back = (cell_no(d, point) as usize) * step;
    let mut p = (point as usize) - back + (size as usize) * step;
    let mut both = 0u32;
    for _ in 0..size {
        p -= step;
        both = both * 2 + in_halves(cells[p]);
    }
    LineCells {
        blacks: (both % 65536) as u16,
        whites: (both / 65536) as u16,
    }
}

// A cell's stone: 1 for a black one, 65536 for a white one. No branch, and the one product is a shift and a sum.
fn in_halves(value: u8) -> u32
    requires { value ≤ 2 }
    ensures { result ≡ digit (eqb value 1) + 65536 * digit (eqb value 2) }
{
    (value as u32) * 32769 & 65537
}
