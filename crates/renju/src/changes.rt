// Cell bytes changed where they stand, and turned into another view.
ghost use Rattle.std.specs.Prelude.{◌≡◌};
ghost use Rattle.rules.specs.Refusals.{first, code_refusal, view_refusal};
ghost use Rattle.rules.specs.Views.{turn, turn_cells};
ghost use Rattle.lent.specs.Lists.{list_out};
ghost use Rattle.cells.specs.Cells.{cells_refusal, cells_refusal_at, cells_refusal_for};
ghost use Rattle.cells.specs.Calls.{after_put, after_remove};
ghost use Rattle.renju.specs.Answers.{word, list_word};

use super::answer::word;
use cells::{put_of, remove_of, turned_of};
use point::turn_point;

// A stone of the colour put at a point, in place of what stood there.
pub fn renju_put(cells: &mut [u8], code: u8, colour: u8) -> u32
    ensures { (result ≡ word (cells_refusal_for cells.old code colour) 0)
        × (cells.new ≡ after_put cells.old code colour) }
{
    word(put_of(cells, code, colour))
}

// A point made empty.
pub fn renju_remove(cells: &mut [u8], code: u8) -> u32
    ensures { (result ≡ word (cells_refusal_at cells.old code) 0)
        × (cells.new ≡ after_remove cells.old code) }
{
    word(remove_of(cells, code))
}

// The cell bytes of the board in a view.
pub fn renju_turn(cells: &[u8], view: u8, out: &mut [u8]) -> u32
    ensures { (result ≡ list_word 1 (first (cells_refusal cells.now) (view_refusal view)) out.old
        (turn_cells view cells.now))
        × (out.new ≡ list_out (first (cells_refusal cells.now) (view_refusal view)) out.old
        (turn_cells view cells.now)) }
{
    word(turned_of(cells, view, out))
}

// Where a view sends a point.
pub fn renju_turn_point(code: u8, view: u8) -> u32
    ensures { result ≡ word (first (code_refusal code) (view_refusal view)) (turn view code) }
{
    word(turn_point(code, view))
}
