// The converter: a saved diagram read by document 01's diagram rules, and its stones text written.
ghost use Rattle.std.specs.Prelude.{◌≡◌};
ghost use Rattle.lent.specs.Lists.{list_out, counted};
ghost use Rattle.diagrams.specs.Stones.{convert_refusal, converted};

use super::stones::write_stones_of;
use rules::Refusal;
use text::read_diagram_cells;

// The stones text of the diagram that a text is, whatever bytes it has, and how long it is. Refusals 1, 2, 5, 6, 7, then 22 for a side
// without stones, then 13.
#[tactic(auto, unfolding(rules::specs::Answers::answer, lent::specs::Lists::counted, lent::specs::Lists::list_refusal, lent::specs::Lists::list_out, rules::specs::Refusals::first, crate::specs::Stones::convert_refusal))]
pub fn convert_diagram(text: &[u8], out: &mut [u8]) -> Result<u16, Refusal>
    ensures { (result ≡ counted 1 (convert_refusal text.now) out.old (converted text.now))
        × (out.new ≡ list_out (convert_refusal text.now) out.old (converted text.now)) }
{
    let cells = read_diagram_cells(text)?;
    write_stones_of(&cells, out)
}
