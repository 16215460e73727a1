// A diagram in text, which only the converter reads: 15 lines from row 15 down, cell by cell.
ghost use Rattle.std.specs.Prelude.{◌≡◌, length};
ghost use Rattle.rules.specs.Answers.{answer, checked};
ghost use Rattle.text.specs.Bytes.{newline, dense, parts};
ghost use Rattle.text.specs.Reading.{letter_cell, count_refusal, diagram_refusal, diagram_cells, diagram_text_refusal, diagram_text_cells};
ghost use Rattle.text.specs.Rows.{letter_put, row_put};

use super::bytes::{is_space, parted, text_refusal, trimmed};
use rules::{Refusal, unless};

// The cells of a diagram, whatever bytes the text has: a slash or a comma is an empty cell.
#[tactic(auto, unfolding(rules::specs::Answers::answer, rules::specs::Refusals::first, crate::specs::Reading::diagram_text_refusal, crate::specs::Reading::diagram_text_cells))]
pub fn read_diagram_cells(text: &[u8]) -> Result<[u8; 225], Refusal>
    ensures { result ≡ answer (diagram_text_refusal text.now) (diagram_text_cells text.now) }
{
    text_refusal(text)?;
    diagram_in(trimmed(text))
}

// Too long a line is met wherever it stands, so lines past the fifteenth are read too; they are put nowhere.
fn diagram_in(t: &[u8]) -> Result<[u8; 225], Refusal>
    ensures { result ≡ answer (diagram_refusal (parts newline t.now)) (diagram_cells (parts newline t.now)) }
{
    let mut cells = [0u8; 225];
    let mut full = true;
    let mut k = 0usize;
    let mut rest = Some(t);
    'lines: while let Some(lines) = rest {
        let (line, others) = parted(lines, b'\n');
        let size = row_in(&mut cells, line, k);
        unless(size <= 15, Refusal::OverLength)?;
        full &= size == 15;
        k += 1;
        rest = others;
    }
    count_refusal(k, full)?;
    Ok(cells)
}

// Behind the last line: whether there were 15, and each of 15 cells.
#[tactic(auto, unfolding(rules::specs::Answers::answer, rules::specs::Refusals::first, rules::specs::Refusals::unless, crate::specs::Reading::count_refusal))]
fn count_refusal(count: usize, full: bool) -> Result<(), Refusal>
    ensures { result ≡ checked (count_refusal count full) }
{
    unless(count == 15, Refusal::WrongCount)?;
    unless(full, Refusal::WrongSize)
}

// The cells of line k, put on its row; how many there are. Space is dropped; each other byte is a cell.
fn row_in(cells: &mut [u8; 225], s: &[u8], k: usize) -> usize
    ensures { (result ≡ length (dense s.now))
        × (cells.new ≡ row_put k 0 (dense s.now) cells.old) }
{
    let mut x = 0usize;
    for b in s {
        if !is_space(*b) {
            put_letter(cells, k, x, *b);
            x += 1;
        }
    }
    x
}

// Cell x of line k. Nothing past the fifteenth of either.
#[tactic(auto, unfolding(crate::specs::Rows::letter_put))]
fn put_letter(cells: &mut [u8; 225], k: usize, x: usize, b: u8)
    ensures { cells.new ≡ letter_put k x b cells.old }
{
    if k < 15 && x < 15 {
        cells[15 * x + (14 - k)] = letter_cell(b);
    }
}

// The value of a cell by its letter: o black, x white, any other byte empty.
#[tactic(auto, unfolding(crate::specs::Reading::letter_cell))]
fn letter_cell(b: u8) -> u8
    ensures { result ≡ letter_cell b }
{
    match b {
        b'o' => 1,
        b'x' => 2,
        _ => 0,
    }
}
