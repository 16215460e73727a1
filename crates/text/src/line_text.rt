// A line in text.
ghost use Rattle.std.specs.Prelude.{◌≡◌};
ghost use Rattle.rules.specs.Answers.{answer};
ghost use Rattle.text.specs.Lines.{line_in, length_refusal, line_text_refusal};

use super::bytes::{is_space, text_refusal};
use line::Line;
use masks::set_bit;
use rules::{Refusal, unless};

// The line that a text says. Lines of fewer than five cells too, as in the original; every question about one is refused.
#[tactic(auto, unfolding(rules::specs::Answers::answer, rules::specs::Refusals::first, crate::specs::Lines::line_text_refusal))]
pub fn read_line(text: &[u8]) -> Result<Line, Refusal>
    ensures { result ≡ answer (line_text_refusal text.now) (line_in text.now) }
{
    text_refusal(text)?;
    line_in(text)
}

// Space is dropped; each other byte is a cell: o black, x white, any other empty.
pub(crate) fn line_in(s: &[u8]) -> Result<Line, Refusal>
    ensures { result ≡ answer (length_refusal s.now) (line_in s.now) }
{
    let mut blacks = 0u16;
    let mut whites = 0u16;
    let mut size = 0u8;
    for b in s {
        if !is_space(*b) {
            unless(size < 15, Refusal::OverLength)?;
            blacks = set_bit(blacks, size, *b == b'o');
            whites = set_bit(whites, size, *b == b'x');
            size += 1;
        }
    }
    Ok(Line {
        blacks,
        whites,
        size,
    })
}
