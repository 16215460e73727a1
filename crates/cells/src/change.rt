// Cells read, and changed where they stand.
ghost use Rattle.std.specs.Prelude.{◌≡◌, cond, ◌<◌, length, get_or, set};
ghost use Rattle.rules.specs.Answers.{checked};
ghost use Rattle.cells.specs.Cells.{cells_refusal_at, cells_refusal_for};
ghost use Rattle.cells.specs.Calls.{after_put, after_remove};

use super::refusal::{cells_refusal_at, cells_refusal_for};
use rules::Refusal;

// A cell's value; 0 past the end.
pub fn value_at(cells: &[u8], i: usize) -> u8
    ensures { result ≡ get_or cells.now i 0 }
{
    cells.get(i).copied().unwrap_or(0)
}

// A cell set to a value; nothing past the end.
pub(crate) fn set_value(cells: &mut [u8], code: u8, value: u8)
    ensures { cells.new ≡ set cells.old code value }
{
    let i = code as usize;
    if i < cells.len() {
        cells[i] = value;
    }
}

// A cell of a board, but for the last, set to a value, with the sixteen of its block: each of them is written, and only the one at the
// point changes. The test of the cells, which the next call begins with, reads them in such blocks, and takes one over that was written
// whole; for a single byte in it, just written, it would have to wait. The last cell lies in no block, and is tested by itself. (That those
// who call look for it themselves lets the block be compiled into both of them.)
fn write_block(cells: &mut [u8], code: u8, value: u8)
    requires { (length cells.old ≡ 225) × (code < 224) }
    ensures { cells.new ≡ set cells.old code value }
{
    let place = code % 16;
    let begin = code - place;
    for i in 0..16u8 {
        let at = (begin + i) as usize;
        cells[at] = chosen(i == place, value, cells[at]);
    }
}

// One of two values; the compiler makes no branch of it.
fn chosen(first: bool, one: u8, other: u8) -> u8
    ensures { result ≡ cond first one other }
{
    if first { one } else { other }
}

// A stone of the colour put at a point, in place of what stood there; or the refusal, and no cell is changed.
#[tactic(auto, unfolding(rules::specs::Answers::answer, crate::specs::Calls::after_put, crate::specs::Calls::changed))]
pub fn put_of(cells: &mut [u8], code: u8, colour: u8) -> Result<(), Refusal>
    ensures { (result ≡ checked (cells_refusal_for cells.old code colour))
        × (cells.new ≡ after_put cells.old code colour) }
{
    cells_refusal_for(cells, code, colour)?;
    if code < 224 {
        write_block(cells, code, colour);
    } else {
        cells[code as usize] = colour;
    }
    Ok(())
}

// A point made empty; or the refusal.
#[tactic(auto, unfolding(rules::specs::Answers::answer, crate::specs::Calls::after_remove, crate::specs::Calls::changed))]
pub fn remove_of(cells: &mut [u8], code: u8) -> Result<(), Refusal>
    ensures { (result ≡ checked (cells_refusal_at cells.old code))
        × (cells.new ≡ after_remove cells.old code) }
{
    cells_refusal_at(cells, code)?;
    if code < 224 {
        write_block(cells, code, 0);
    } else {
        cells[code as usize] = 0;
    }
    Ok(())
}
