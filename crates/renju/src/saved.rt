// Saved diagrams: read into 225 cell bytes, and converted to stones text, which `renju_read` reads.
ghost use Rattle.std.specs.Prelude.{◌≡◌};
ghost use Rattle.lent.specs.Lists.{list_out};
ghost use Rattle.text.specs.Reading.{diagram_text_refusal, diagram_text_cells};
ghost use Rattle.diagrams.specs.Stones.{convert_refusal, converted};
ghost use Rattle.renju.specs.Answers.{list_word};

use super::answer::word;
use super::texts::cells_out;
use diagrams::convert_diagram;
use text::read_diagram_cells;

// The cells of the diagram that a text is, whatever bytes it has, to the front of `cells`.
pub fn renju_read_diagram(text: &[u8], cells: &mut [u8]) -> u32
    ensures { (result ≡ list_word 1 (diagram_text_refusal text.now) cells.old (diagram_text_cells text.now))
        × (cells.new ≡ list_out (diagram_text_refusal text.now) cells.old
        (diagram_text_cells text.now)) }
{
    word(cells_out(read_diagram_cells(text), cells))
}

// The stones text of that diagram: how many bytes it has.
pub fn renju_convert(text: &[u8], out: &mut [u8]) -> u32
    ensures { (result ≡ list_word 1 (convert_refusal text.now) out.old (converted text.now))
        × (out.new ≡ list_out (convert_refusal text.now) out.old (converted text.now)) }
{
    word(convert_diagram(text, out))
}
