// The forbidden list, collected: a point is asked about where what is seen of all points at once leaves something to ask.
ghost use Rattle.std.specs.Prelude.{◌≡◌, T};
ghost use Rattle.rules.specs.Forbidden.{strict_of, forbidden_list};
ghost use Rattle.grid.specs.Lines.{lines_of};
ghost use Rattle.sweep.specs.Marks.{marks, asked_at};
ghost use Rattle.referee.specs.Referee.{columns_of};
ghost use Rattle.cells.specs.Cells.{Cells};

use super::cycle::strict;
use super::single::{asked_of, lines_if, rows_of};
use lent::Kept;
use masks::bit_at;
use point::Table;
use rules::{Code, Verdict};
use sweep::{is_marked, marked_columns, sweep_points};

// Each point whose strict verdict is a kind, ascending: at most 225 pairs of a kind and a code.
pub(crate) fn forbidden_pairs(cells: &[u8]) -> Kept<450>
    requires { Cells cells.now }
    ensures { result ≡ forbidden_list cells.now }
{
    let asked = sweep_points(cells);
    let columns = marked_columns(&asked);
    if columns == 0 {
        return Kept::new();
    }
    let table = Table::new();
    let built = are_many(columns);
    let mut lines = lines_if(built, cells, &table);
    asked_pairs(cells, &mut lines, &table, built, &asked, columns)
}

// Whether the points to ask about lie in so many columns that it pays to build the lines for all of them. A game's board has about one
// such point, or none.
fn are_many(columns: u16) -> bool {
    u16::count_ones(columns) > 3
}

// .. on the lines, if they are built, or on the cells, by one table. A column without a mark is passed over.
fn asked_pairs(
    cells: &[u8],
    lines: &mut [u16; 144],
    table: &Table,
    built: bool,
    asked: &[u16; 26],
    columns: u16,
) -> Kept<450>
    requires { Cells cells.now × (T built → lines.old ≡ lines_of cells.now) × (asked.now ≡ marks (asked_at cells.now))
        × (columns ≡ columns_of asked.now) }
    ensures { result ≡ forbidden_list cells.now }
{
    let mut found = Kept::new();
    for x in 0..15u8 {
        if bit_at(columns, x) {
            for y in 0..15u8 {
                let code = 15 * x + y;
                let point = Code::new(code).unwrap();
                let verdict = verdict_at(cells, lines, table, built, asked, point);
                if !verdict.is_none() {
                    found.keep(&[verdict.number(), code]);
                }
            }
        }
    }
    found
}

// The strict verdict at a point: asked where it is marked, which is an empty point, else none.
fn verdict_at(
    cells: &[u8],
    lines: &mut [u16; 144],
    table: &Table,
    built: bool,
    asked: &[u16; 26],
    code: Code,
) -> Verdict
    requires { Cells cells.now × (T built → lines.old ≡ lines_of cells.now)
        × (asked.now ≡ marks (asked_at cells.now)) }
    ensures { (result ≡ strict_of cells.now code) × (lines.new ≡ lines.old) }
{
    if is_marked(asked, code.get()) {
        if built {
            return strict(lines, table, code);
        }
        return asked_of(cells, table, code, rows_of(cells, code));
    }
    Verdict::None
}
