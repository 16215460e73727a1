// What an attack asks of a point of the stored lines, which are sound.
ghost use Rattle.std.specs.Prelude.{◌≡◌, not, ◌&&◌, get_or};
ghost use Rattle.rules.specs.Numbers.{is_black, is_none};
ghost use Rattle.rules.specs.Grid.{rows_through};
ghost use Rattle.rules.specs.Forbidden.{strict_of};
ghost use Rattle.near.specs.Rows.{RowsAre};
ghost use Rattle.grid.specs.Lines.{cells_of, Sound};

use grid::{cells_on, masks_by};
use near::{Rows, more_than_one, rows_near, some_row};
use point::Table;
use referee::forbidden_strict_of;
use rules::{Code, Player};

// The player's rows through a point.
pub(crate) fn rows_for(lines: &[u16; 144], table: &Table, code: Code, player: Player) -> Rows
    requires { Sound lines.now }
    ensures { RowsAre (λ kind. rows_through player kind (cells_of lines.now) code) result }
{
    let numbers = table.numbers();
    let code = code.get();
    rows_near(
        masks_by(lines, numbers, code, player),
        masks_by(lines, numbers, code, player.opponent()),
        code,
        player.is_black(),
    )
}

// Whether an empty point is forbidden to the player, by the player's rows through it. Only where more than one Two goes through it is the
// referee asked.
pub(crate) fn is_forbidden(lines: &[u16; 144], code: Code, player: Player, rows: Rows) -> bool
    requires { Sound lines.now × (get_or (cells_of lines.now) code 0 ≡ 0)
        × RowsAre (λ kind. rows_through player kind (cells_of lines.now) code) rows }
    ensures { result ≡ (is_black player && not (is_none (strict_of (cells_of lines.now) code))) }
{
    if player.is_white() || some_row(rows.fours) {
        return false;
    }
    if some_row(rows.overlinings) || more_than_one(rows.swords) {
        return true;
    }
    more_than_one(rows.twos) && is_kind_on(lines, code)
}

// Whether the strict verdict at a point is a kind. The cells of any lines are cells, so the question is never refused.
fn is_kind_on(lines: &[u16; 144], code: Code) -> bool
    ensures { result ≡ not (is_none (strict_of (cells_of lines.now) code)) }
{
    let cells = cells_on(lines);
    match forbidden_strict_of(&cells, code.get()) {
        Ok(verdict) => !verdict.is_none(),
        Err(_) => false,
    }
}
