// Black's rows through a point of the stored lines, as four start masks for each kind.
ghost use Rattle.std.specs.Prelude.{◌≡◌, get_or};
ghost use Rattle.rules.specs.Forbidden.{strict_of, plain_of, real_double, black_rows};
ghost use Rattle.near.specs.Rows.{RowsAre};
ghost use Rattle.grid.specs.Lines.{cells_of, Sound, write_on};
ghost use Rattle.referee.specs.Referee.{rows_by};

use super::cycle::{plain, two_real};
use grid::{put_on, row_starts_by, stones_by};
use near::{Rows, black_rows_near};
use point::Table;
use rules::{Code, Player, RowKind, Verdict};

// The four kinds that the verdict is told by: of any lines as the masks through the point say, of sound ones those of their cells.
pub fn rows_on(lines: &[u16; 144], table: &Table, code: Code) -> Rows
    ensures any { RowsAre (rows_by lines.now code) result }
    ensures sound { Sound lines.now → RowsAre (black_rows (cells_of lines.now) code) result }
{
    let p = code.get();
    let stones = stones_by(lines, table.numbers(), p, Player::Black);
    black_rows_near(stones.own, stones.other, p)
}

// The plain verdict at an empty point.
pub(crate) fn plain_on(lines: &mut [u16; 144], code: Code) -> Verdict
    requires { Sound lines.old × (get_or (cells_of lines.old) code 0 ≡ 0) }
    ensures { (result ≡ plain_of (cells_of lines.old) code) × (lines.new ≡ lines.old) }
{
    let table = Table::new();
    let rows = rows_on(lines, &table, code);
    plain(lines, &table, code, rows)
}

// Whether more than one real Three goes through the stone at a point.
pub(crate) fn real_on(lines: &mut [u16; 144], code: Code) -> bool
    requires { Sound lines.old }
    ensures { (result ≡ real_double strict_of (cells_of lines.old) code) × (lines.new ≡ lines.old) }
{
    let table = Table::new();
    let threes = row_starts_by(
        lines,
        table.numbers(),
        code.get(),
        Player::Black,
        RowKind::Three,
    );
    two_real(lines, &table, code, threes)
}

// A black stone at a point, in place of what stood there. A function of the lines and the code alone, as the shared walk of `thin` wants.
pub(crate) fn put_black(lines: &mut [u16; 144], code: u8)
    ensures { lines.new ≡ write_on lines.old code 1 }
{
    put_on(lines, code, Player::Black);
}
