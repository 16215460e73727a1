// The cells of a turned board, column by column: what comes to one column lay a step apart.
ghost use Rattle.std.specs.Prelude.{◌≡◌, ◌+◌, ◌*◌, ◌<◌, take};
ghost use Rattle.lent.specs.Lists.{laid, zeros};
ghost use Rattle.rules.specs.Views.{turn_cells};
ghost use Rattle.cells.specs.Turned.{turned_to};

use point::{turned, undone};

// The cells of the board in a view, one over 7 taken for 7: at each point what stood where the view came from.
pub fn turned_cells(cells: &[u8], view: u8) -> [u8; 225]
    ensures { result ≡ turn_cells view cells.now }
{
    let from = copied(cells);
    let back = undone(view);
    let mut to = [0u8; 225];
    for x in 0..15u8 {
        turn_column(&from, back, x, &mut to);
    }
    to
}

// The first 225 bytes by value, or as many as there are.
fn copied(cells: &[u8]) -> [u8; 225]
    ensures { result ≡ laid (zeros 225) (take 225 cells.now) }
{
    let mut copy = [0u8; 225];
    let n = cells.len().min(225);
    copy[..n].copy_from_slice(&cells[..n]);
    copy
}

// Column x of them: only its first cell is looked up, and the step is that of the first two points. (15 more: no step goes below 0.)
fn turn_column(from: &[u8; 225], back: u8, x: u8, to: &mut [u8; 225])
    requires { (x < 15) × (to.old ≡ turned_to (15 * x) back from.now) }
    ensures { to.new ≡ turned_to (15 * x + 15) back from.now }
{
    let here = turned(0, back);
    let next = turned(1, back);
    let mut at = turned(15 * x, back) + 15;
    for q in 15 * x..15 * x + 15 {
        to[q as usize] = from[(at - 15) as usize];
        at = at + next - here;
    }
}
