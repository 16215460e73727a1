// A text read into a point's code or into 225 cell bytes, and cell bytes written as a diagram.
ghost use Rattle.std.specs.Prelude.{◌≡◌};
ghost use Rattle.lent.specs.Lists.{list_out};
ghost use Rattle.text.specs.Points.{point_text_refusal, item_code};
ghost use Rattle.text.specs.Reading.{read_refusal, read_cells};
ghost use Rattle.display.specs.Texts.{diagram_of, numbered_of};
ghost use Rattle.renju.specs.Answers.{word, list_word};
ghost use Rattle.cells.specs.Cells.{cells_refusal};

// The code of the point that a text names, alone in it.
#[unsafe(no_mangle)]
pub extern "C" fn renju_read_point(text: &[u8]) -> u32
    ensures { result ≡ word (point_text_refusal text.now) (item_code text.now) }
{
    renju::renju_read_point(text)
}

// The cells that a text says, stones or moves, to the front of `cells`.
#[unsafe(no_mangle)]
pub extern "C" fn renju_read(text: &[u8], cells: &mut [u8]) -> u32
    ensures { (result ≡ list_word 1 (read_refusal text.now) cells.old (read_cells text.now))
        × (cells.new ≡ list_out (read_refusal text.now) cells.old (read_cells text.now)) }
{
    renju::renju_read(text, cells)
}

// The plain diagram, which `renju_read_diagram` reads back.
#[unsafe(no_mangle)]
pub extern "C" fn renju_to_string(cells: &[u8], out: &mut [u8]) -> u32
    ensures { (result ≡ list_word 1 (cells_refusal cells.now) out.old (diagram_of cells.now))
        × (out.new ≡ list_out (cells_refusal cells.now) out.old (diagram_of cells.now)) }
{
    renju::renju_to_string(cells, out)
}

// The diagram with its rows numbered and its columns lettered.
#[unsafe(no_mangle)]
pub extern "C" fn renju_to_pretty_string(cells: &[u8], out: &mut [u8]) -> u32
    ensures { (result ≡ list_word 1 (cells_refusal cells.now) out.old (numbered_of cells.now))
        × (out.new ≡ list_out (cells_refusal cells.now) out.old (numbered_of cells.now)) }
{
    renju::renju_to_pretty_string(cells, out)
}
