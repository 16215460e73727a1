// A comma list of points.
ghost use Rattle.std.specs.Prelude.{◌≡◌, [], ◌≤◌, length};
ghost use Rattle.std.specs.Result.{IfOk};
ghost use Rattle.rules.specs.Answers.{answer, checked};
ghost use Rattle.lent.specs.Lists.{list_out, counted};
ghost use Rattle.cells.specs.Cells.{codes_refusal};
ghost use Rattle.text.specs.Points.{points_in, points_refusal, list_text_refusal, list_found};
ghost use Rattle.text.specs.Bytes.{text_refusal};

use super::bytes::{parted, text_refusal, trimmed};
use super::point_text::item_in;
use lent::{Kept, hand_out};
use rules::Refusal;

// The codes of a list's points: up to the first item that is refused, where there is one. A text of 4,096 bytes has at most one item more.
#[derive(Clone, Copy)]
pub struct Leading {
    pub codes: Kept<4097>,
    pub slip: Option<Slip>,
}

// An item that is refused: its number, from 1, and why.
#[derive(Clone, Copy, Debug, PartialEq, Eq)]
pub struct Slip {
    pub item: usize,
    pub refusal: Refusal,
}

// The codes of the points of a comma list, written to the front of `out`, and how many there are.
#[tactic(auto, unfolding(rules::specs::Answers::answer, rules::specs::Refusals::first, lent::specs::Lists::list_refusal, lent::specs::Lists::list_out, lent::specs::Lists::counted, crate::specs::Points::list_text_refusal))]
pub fn read_points(text: &[u8], out: &mut [u8]) -> Result<u16, Refusal>
    ensures { (result ≡ counted 1 (list_text_refusal text.now) out.old (points_in text.now))
        × (out.new ≡ list_out (list_text_refusal text.now) out.old (points_in text.now)) }
{
    text_refusal(text)?;
    let mut codes = Kept::new();
    codes_in(text, &mut codes)?;
    hand_out(codes.as_slice(), codes.len() as u16, out)
}

// The codes of the points of a comma list up to the first item that is refused; none where the text is refused as any text is.
#[tactic(auto, unfolding(rules::specs::Answers::answer))]
pub fn read_leading(text: &[u8]) -> Result<Leading, Refusal>
    ensures { result ≡ answer (text_refusal text.now) (list_found text.now) }
{
    text_refusal(text)?;
    let mut codes = Kept::new();
    let slip = leading_into(text, &mut codes);
    Ok(Leading { codes, slip })
}

// The codes of all of them, kept in `codes`, or why the first that is refused is.
pub(crate) fn codes_in(s: &[u8], codes: &mut Kept<4097>) -> Result<(), Refusal>
    requires { (length s.now ≤ 4096) × (codes.old ≡ []) }
    ensures value { result ≡ checked (points_refusal s.now) }
    ensures all { IfOk result (λ _. codes.new ≡ points_in s.now) }
    ensures good { IfOk result (λ _. codes_refusal codes.new ≡ 0) }
{
    match leading_into(s, codes) {
        None => Ok(()),
        Some(slip) => Err(slip.refusal),
    }
}

// The codes of those before the first that is refused, kept in `codes`, and that one, where there is one.
fn leading_into(s: &[u8], codes: &mut Kept<4097>) -> Option<Slip>
    requires { (length s.now ≤ 4096) × (codes.old ≡ []) }
    ensures { (codes.new ≡ (list_found s.now).codes) × (result ≡ (list_found s.now).slip) }
{
    let mut rest = Some(trimmed(s));
    'items: while let Some(items) = rest {
        let (item, others) = parted(items, b',');
        match item_in(item) {
            Ok(code) => codes.keep(&[code]),
            Err(refusal) => {
                let item = codes.len() + 1;
                return Some(Slip { item, refusal });
            }
        }
        rest = others;
    }
    None
}
