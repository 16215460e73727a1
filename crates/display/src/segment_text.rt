// A segment's seven cells, its five between bars.
ghost use Rattle.std.specs.Prelude.{◌≡◌, ◌+◌, ◌≤◌, ◌++◌, length};
ghost use Rattle.rules.specs.Bit.{bit};
ghost use Rattle.lent.specs.Lists.{list_out};
ghost use Rattle.segment.specs.Segments.{segment_refusal};
ghost use Rattle.display.specs.Answers.{written};
ghost use Rattle.display.specs.Texts.{barred, bar_before, values_of, segment_text, text_of_segment};

use super::layout::{hand_out, put, put_if};
use super::line_text::letter;
use lent::Kept;
use masks::cell_value;
use rules::Refusal;
use segment::Segment;

// Nine bytes, like `-|oo-o-|x`: 9 for a segment that is not sound.
#[tactic(auto, unfolding(crate::specs::Answers::written, rules::specs::Answers::answer, lent::specs::Lists::list_refusal, lent::specs::Lists::list_out, rules::specs::Refusals::first, crate::specs::Texts::text_of_segment))]
pub fn write_segment(segment: Segment, out: &mut [u8]) -> Result<usize, Refusal>
    ensures { (result ≡ written (segment_refusal segment) out.old (text_of_segment segment))
        × (out.new ≡ list_out (segment_refusal segment) out.old (text_of_segment segment)) }
{
    segment.refusal()?;
    hand_out(segment_in(segment.blacks, segment.whites).as_slice(), out)
}

// The seven cells: there is room for a bar before each.
fn segment_in(blacks: u8, whites: u8) -> Kept<14>
    ensures { result ≡ segment_text (values_of (bit blacks) (bit whites)) }
{
    let mut text = Kept::new();
    for k in 0..7u8 {
        barred_into(k, cell_value(blacks as u16, whites as u16, k), &mut text);
    }
    text
}

// Cell k, with a bar before it where the five cells start or have ended.
#[tactic(auto, unfolding(crate::specs::Texts::barred))]
fn barred_into<const N: usize>(k: u8, value: u8, text: &mut Kept<N>)
    requires { length text.old + 2 ≤ N }
    ensures { text.new ≡ text.old ++ barred k value }
{
    put_if(bar_before(k), b"|", text);
    put(&[letter(value, b'-')], text);
}

#[tactic(auto, unfolding(crate::specs::Texts::bar_before))]
fn bar_before(k: u8) -> bool
    ensures { result ≡ bar_before k }
{
    k == 1 || k == 6
}
