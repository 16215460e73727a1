// The one eye of a Three: where a stone makes it a straight four.
ghost use Rattle.std.specs.Prelude.{◌≡◌, ◌+◌, ◌-◌, ◌*◌, ◌/◌, ◌%◌, ◌≤◌, ◌<◌, T};
ghost use Rattle.rules.specs.Grid.{rows_through};
ghost use Rattle.rules.specs.Forbidden.{eye_of};
ghost use Rattle.rules.specs.declared.Player.TheVariants.{Black};
ghost use Rattle.rules.specs.declared.RowKind.TheVariants.{Three};
ghost use Rattle.grid.specs.Lines.{cells_of, Sound};
ghost use Rattle.referee.specs.Referee.{eye_by, walk_by};

use grid::mask_on;
use near::first_gap;
use point::{Table, address_by, step_in};
use rules::{Below, Code, Player};

// A Three through a point by its number: 16 times the direction, and the cell where it starts.
pub type Three = Below<64>;

// Of the Three through a point that has this number: the first gap in Black's stones from its start on. Of lines that are not sound, and where
// there is no such Three, the byte to which the same walk leads.
pub fn eye_on(lines: &[u16; 144], table: &Table, code: Code, three: Three) -> u8
    ensures any { result ≡ eye_by lines.now code (three / 16) (three % 16) }
    ensures sound { Sound lines.now → T (rows_through Black Three (cells_of lines.now) code (three / 16) (three % 16))
        → result ≡ eye_of (cells_of lines.now) code (three / 16) (three % 16) }
{
    let p = code.get();
    let start = three.get();
    let d = start / 16;
    let here = address_by(table.numbers(), d, p);
    let gap = first_gap(mask_on(lines, here.key, Player::Black), start % 16);
    walked(p, here.cell, step_in(d), gap)
}

// From a point back to its line's first cell, and on to another cell. The sums wrap, which none does where the lines are sound and the Three
// is there.
#[tactic(auto, unfolding(crate::specs::Referee::walk_by))]
fn walked(code: u8, cell: u8, step: u8, to: u8) -> u8
    ensures { result ≡ walk_by code (cell * step) (to * step) }
{
    code.wrapping_sub(cell.wrapping_mul(step))
        .wrapping_add(to.wrapping_mul(step))
}
