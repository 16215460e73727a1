// Stones text: Black's points by ascending code, a slash, White's.
ghost use Rattle.std.specs.Prelude.{◌≡◌, ◌∷◌, ◌++◌, ◌≤◌, ltb, length};
ghost use Rattle.rules.specs.Answers.{checked};
ghost use Rattle.rules.specs.Refusals.{one_sided, unless, first};
ghost use Rattle.lent.specs.Lists.{list_out, counted};
ghost use Rattle.cells.specs.Cells.{codes_refusal};
ghost use Rattle.text.specs.Bytes.{slash};
ghost use Rattle.display.specs.Texts.{points_text};
ghost use Rattle.diagrams.specs.Stones.{stones_text, cells_sides_refusal};

use cells::{cells_refusal, points_with};
use display::write_points;
use lent::{Kept, hand_out, head};
use rules::{Refusal, unless};

// The stones text of 225 cell bytes, and how long it is: 9 for bytes that are no board's, then 22 for a side without stones, then 13.
#[tactic(auto, unfolding(rules::specs::Answers::answer, lent::specs::Lists::counted, lent::specs::Lists::list_refusal, lent::specs::Lists::list_out, rules::specs::Refusals::first, crate::specs::Stones::cells_sides_refusal))]
pub fn write_stones_of(cells: &[u8], out: &mut [u8]) -> Result<u16, Refusal>
    ensures { (result ≡ counted 1 (cells_sides_refusal cells.now) out.old (stones_text cells.now))
        × (out.new ≡ list_out (cells_sides_refusal cells.now) out.old (stones_text cells.now)) }
{
    cells_refusal(cells)?;
    let blacks = points_with(cells, 1);
    let whites = points_with(cells, 2);
    sides_refusal(blacks.as_slice(), whites.as_slice())?;
    let text = joined(blacks.as_slice(), whites.as_slice());
    hand_out(text.as_slice(), text.len() as u16, out)
}

// 22 for a side without stones.
#[tactic(auto, unfolding(rules::specs::Answers::answer, rules::specs::Refusals::first, rules::specs::Refusals::unless))]
fn sides_refusal(blacks: &[u8], whites: &[u8]) -> Result<(), Refusal>
    ensures { result ≡ checked (first (unless (ltb 0 (length blacks.now)) one_sided) (unless (ltb 0 (length whites.now)) one_sided)) }
{
    unless(!blacks.is_empty(), Refusal::OneSided)?;
    unless(!whites.is_empty(), Refusal::OneSided)
}

// The points of two sides with a slash between them: at most 225 a side, each with its comma in at most five bytes.
#[tactic(auto, using(crate::proofs::Sides::list_short), unfolding(lent::specs::Lists::kept))]
fn joined(before: &[u8], behind: &[u8]) -> Kept<2251>
    requires { (codes_refusal before.now ≡ 0) × (length before.now ≤ 225)
        × (codes_refusal behind.now ≡ 0) × (length behind.now ≤ 225) }
    ensures { result ≡ points_text before.now ++ slash ∷ points_text behind.now }
{
    let mut text = Kept::new();
    side_into(before, &mut text);
    text.keep(b"/");
    side_into(behind, &mut text);
    text
}

// The points of a side at the end of a text.
fn side_into(codes: &[u8], text: &mut Kept<2251>)
    requires { (codes_refusal codes.now ≡ 0) × (length codes.now ≤ 225) × (length text.old ≤ 1126) }
    ensures { text.new ≡ text.old ++ points_text codes.now }
{
    let mut bytes = [0u8; 1125];
    if let Ok(n) = write_points(codes, &mut bytes) {
        text.keep(head(&bytes, n));
    }
}
