// The 225 cells that the stored lines show, the lines of 225 cells, and whether lines are sound: those of their own cells.
ghost use Rattle.std.specs.Prelude.{◌≡◌};
ghost use Rattle.rules.specs.Answers.{checked};
ghost use Rattle.grid.specs.Lines.{cell_of, cells_of, lines_of, lines_by, same_list, is_sound, lines_refusal};

use super::store::add_by;
use cells::value_at;
use masks::cell_value;
use point::addresses;
use rules::{Player, Refusal, is_colour, unless};

// What stands at a point, read off its column: 0 empty, 1 black, 2 white. A code over 224 is no point; its sum leads to a cell of one of
// the first horizontal lines.
#[tactic(auto, unfolding(crate::specs::Lines::cell_of))]
pub fn cell_on(lines: &[u16; 144], code: u8) -> u8
    ensures { result ≡ cell_of lines.now code }
{
    let k = (code / 15) as usize;
    cell_value(lines[k], lines[72 + k], code % 15)
}

// All cells, in code order.
pub fn cells_on(lines: &[u16; 144]) -> [u8; 225]
    ensures { result ≡ cells_of lines.now }
{
    let mut cells = [0u8; 225];
    for i in 0..225u8 {
        cells[i as usize] = cell_on(lines, i);
    }
    cells
}

// The lines of a board with these cells, a cell past the slice's end for empty.
pub fn lines_of(cells: &[u8]) -> [u16; 144]
    ensures { result ≡ lines_of cells.now }
{
    let table = addresses();
    lines_by(cells, &table)
}

// The same by a lent table of addresses, for whoever then asks on these lines. The stones alone are walked, and each is added where none
// stands yet, so its own colour's masks are all that change.
pub fn lines_by(cells: &[u8], table: &[u16; 900]) -> [u16; 144]
    ensures { result ≡ lines_by cells.now table.now }
{
    let mut lines = [0u16; 144];
    for i in 0..225u8 {
        let value = value_at(cells, i as usize);
        if is_colour(value) {
            add_by(&mut lines, table, i, Player::or_white(value));
        }
    }
    lines
}

// Whether the lines are those of their cells.
#[tactic(auto, unfolding(crate::specs::Lines::is_sound))]
pub fn is_sound_on(lines: &[u16; 144]) -> bool
    ensures { result ≡ is_sound lines.now }
{
    *lines == lines_of(&cells_on(lines))
}

// Unsound for lines that are not sound.
#[tactic(auto, unfolding(crate::specs::Lines::lines_refusal, rules::specs::Refusals::unless, rules::specs::Answers::answer))]
pub fn lines_refusal(lines: &[u16; 144]) -> Result<(), Refusal>
    ensures { result ≡ checked (lines_refusal lines.now) }
{
    unless(is_sound_on(lines), Refusal::Unsound)
}
