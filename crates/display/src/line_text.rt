// A line's cells, each a space and a letter: of a line alone, and of the rows of a diagram.
ghost use Rattle.std.specs.Prelude.{◌≡◌, ◌+◌, ◌*◌, ◌≤◌, ◌++◌, length};
ghost use Rattle.rules.specs.Bit.{bit};
ghost use Rattle.rules.specs.Tools.{tab};
ghost use Rattle.lent.specs.Lists.{list_out};
ghost use Rattle.line.specs.Lines.{line_refusal};
ghost use Rattle.display.specs.Answers.{written};
ghost use Rattle.display.specs.Texts.{letter_or, values_of, line_text, text_of_line, stepped};

use super::layout::{hand_out, put};
use cells::value_at;
use lent::Kept;
use line::Line;
use masks::cell_value;
use rules::Refusal;

// A line alone: 10 for its size, then 9.
#[tactic(auto, unfolding(crate::specs::Answers::written, rules::specs::Answers::answer, lent::specs::Lists::list_refusal, lent::specs::Lists::list_out, rules::specs::Refusals::first))]
pub fn write_line(line: Line, out: &mut [u8]) -> Result<usize, Refusal>
    ensures { (result ≡ written (line_refusal line) out.old (text_of_line line))
        × (out.new ≡ list_out (line_refusal line) out.old (text_of_line line)) }
{
    line.refusal()?;
    hand_out(line_in(line).as_slice(), out)
}

// The cells of a line of at most 15.
fn line_in(line: Line) -> Kept<30>
    requires { line.size ≤ 15 }
    ensures { result ≡ text_of_line line }
{
    let cells = cells_in(line.blacks, line.whites);
    let mut text = Kept::new();
    line_into(&cells, 0, 1, line.size, &mut text);
    text
}

// The cells of two masks.
fn cells_in(blacks: u16, whites: u16) -> [u8; 16]
    ensures { result ≡ tab 16 (values_of (bit blacks) (bit whites)) }
{
    let mut cells = [0u8; 16];
    for i in 0..16u8 {
        cells[i as usize] = cell_value(blacks, whites, i);
    }
    cells
}

// The cells `first`, `first + step`, .. , as many as the size says, each a space and a letter, at the end of a text.
pub(crate) fn line_into<const N: usize>(
    cells: &[u8],
    first: u8,
    step: u8,
    size: u8,
    text: &mut Kept<N>,
)
    requires { (length text.old + size * 2 ≤ N) × (first ≤ 15) × (step ≤ 15) × (size ≤ 15) }
    ensures { text.new ≡ text.old ++ line_text size (stepped cells.now first step) }
{
    for i in 0..size {
        let value = value_at(cells, (first + step * i) as usize);
        put(&[b' ', letter(value, b'.')], text);
    }
}

// The letter of a cell: 1 black, 2 white, else empty.
#[tactic(auto, unfolding(crate::specs::Texts::letter_or))]
pub(crate) fn letter(value: u8, empty: u8) -> u8
    ensures { result ≡ letter_or empty value }
{
    match value {
        1 => b'o',
        2 => b'x',
        _ => empty,
    }
}
