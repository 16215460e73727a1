// A text read into a point's code or into 225 cell bytes, and cell bytes written as a diagram.
ghost use Rattle.std.specs.Prelude.{◌≡◌, List, ℕ};
ghost use Rattle.rules.specs.Answers.{answer};
ghost use Rattle.lent.specs.Lists.{list_refusal, list_out};
ghost use Rattle.text.specs.Points.{point_text_refusal, item_code};
ghost use Rattle.text.specs.Reading.{read_refusal, read_cells};
ghost use Rattle.display.specs.Texts.{diagram_of, numbered_of};
ghost use Rattle.renju.specs.Answers.{word, list_word};
ghost use Rattle.cells.specs.Cells.{cells_refusal};

use super::answer::word;
use display::{write_diagram_of, write_numbered_of};
use lent::hand_out;
use rules::Refusal;
use text::{read_cells, read_point};

// The code of the point that a text names, alone in it.
pub fn renju_read_point(text: &[u8]) -> u32
    ensures { result ≡ word (point_text_refusal text.now) (item_code text.now) }
{
    word(read_point(text))
}

// The cells that a text says, stones or moves, to the front of `cells`.
pub fn renju_read(text: &[u8], cells: &mut [u8]) -> u32
    ensures { (result ≡ list_word 1 (read_refusal text.now) cells.old (read_cells text.now))
        × (cells.new ≡ list_out (read_refusal text.now) cells.old (read_cells text.now)) }
{
    word(cells_out(read_cells(text), cells))
}

// The plain diagram, which `renju_read_diagram` reads back.
pub fn renju_to_string(cells: &[u8], out: &mut [u8]) -> u32
    ensures { (result ≡ list_word 1 (cells_refusal cells.now) out.old (diagram_of cells.now))
        × (out.new ≡ list_out (cells_refusal cells.now) out.old (diagram_of cells.now)) }
{
    word(of_length(write_diagram_of(cells, out), 464))
}

// The diagram with its rows numbered and its columns lettered.
pub fn renju_to_pretty_string(cells: &[u8], out: &mut [u8]) -> u32
    ensures { (result ≡ list_word 1 (cells_refusal cells.now) out.old (numbered_of cells.now))
        × (out.new ≡ list_out (cells_refusal cells.now) out.old (numbered_of cells.now)) }
{
    word(of_length(write_numbered_of(cells, out), 527))
}

// The cells that were read, to the front of `out`.
pub(crate) fn cells_out(read: Result<[u8; 225], Refusal>, out: &mut [u8]) -> Result<u16, Refusal>
    ensures { (told : ℕ) (cells : List ℕ) → read ≡ answer told cells →
        (result ≡ answer (list_refusal told out.old cells) 225) × (out.new ≡ list_out told out.old cells) }
{
    hand_out(&read?, 225, out)
}

// A text that always has the same length.
fn of_length(written: Result<usize, Refusal>, length: u16) -> Result<u16, Refusal>
    ensures { (told n : ℕ) → written ≡ answer told n → result ≡ answer told length }
{
    written?;
    Ok(length)
}
