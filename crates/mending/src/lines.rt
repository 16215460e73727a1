// A mended list as text: the kept moves on the first line; on the second the number of the item that slips and its reason.
ghost use Rattle.std.specs.Prelude.{◌≡◌, ◌≤◌, length};
ghost use Rattle.rules.specs.Answers.{answer};
ghost use Rattle.lent.specs.Lists.{list_out, counted};
ghost use Rattle.cells.specs.Cells.{codes_refusal};
ghost use Rattle.text.specs.Bytes.{text_refusal};
ghost use Rattle.mending.specs.Mending.{slip_line, slip_item, slip_reason, two_lines, mended_text};

use super::kept::{Slip, mend_list};
use display::{number_label, write_points};
use lent::{Kept, hand_out, head};
use rules::Refusal;

// The two lines of a text's mended list, each ended by byte 10, written to the front of `out`, and how long they are. Refusals 1, 2, 13.
#[tactic(auto, unfolding(rules::specs::Answers::answer, rules::specs::Refusals::first, rules::specs::Refusals::unless, lent::specs::Lists::list_refusal, lent::specs::Lists::list_out, lent::specs::Lists::counted))]
pub fn write_mended(text: &[u8], out: &mut [u8]) -> Result<u16, Refusal>
    ensures { (result ≡ counted 1 (text_refusal text.now) out.old (mended_text text.now))
        × (out.new ≡ list_out (text_refusal text.now) out.old (mended_text text.now)) }
{
    let lines = mended_lines(text)?;
    hand_out(lines.as_slice(), lines.len() as u16, out)
}

// The two lines themselves.
#[tactic(auto, unfolding(rules::specs::Answers::answer))]
fn mended_lines(text: &[u8]) -> Result<Kept<1152>, Refusal>
    ensures { result ≡ answer (text_refusal text.now) (mended_text text.now) }
{
    let mended = mend_list(text)?;
    let (item, reason) = numbers(mended.slip);
    Ok(two_lines(mended.moves.as_slice(), item, reason))
}

// The numbers of the second line: 0 twice where no item slips.
fn numbers(slip: Option<Slip>) -> (u8, u8)
    ensures item { result.0 ≡ slip_item slip }
    ensures reason { result.1 ≡ slip_reason slip }
{
    match slip {
        None => (0, 0),
        Some(slip) => (slip.item, slip.reason.number()),
    }
}

// There is room for 225 points of at most five bytes with their commas, and for the second line.
fn two_lines(moves: &[u8], item: u8, reason: u8) -> Kept<1152>
    requires { (length moves.now ≤ 225) × (codes_refusal moves.now ≡ 0) }
    ensures { result ≡ two_lines moves.now item reason }
{
    let mut points = [0u8; 1125];
    let len = write_points(moves, &mut points).unwrap_or(0);
    let mut lines = Kept::new();
    lines.keep(head(&points, len));
    lines.keep(b"\n");
    lines.keep(slip_line(item, reason).as_slice());
    lines
}

// The second line.
fn slip_line(item: u8, reason: u8) -> Kept<8>
    ensures { result ≡ slip_line item reason }
{
    let mut line = Kept::new();
    line.keep(number_label(item).as_slice());
    line.keep(b" ");
    line.keep(number_label(reason).as_slice());
    line.keep(b"\n");
    line
}
