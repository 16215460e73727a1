// The canonical form asked of cell bytes.
ghost use Rattle.std.specs.Prelude.{◌≡◌};
ghost use Rattle.rules.specs.Answers.{answer};
ghost use Rattle.lent.specs.Lists.{list_refusal, list_out};
ghost use Rattle.cells.specs.Cells.{cells_refusal};
ghost use Rattle.canonical.specs.Canonical.{canonical_view, canonical_cells};

use super::least::least_seen;
use cells::cells_refusal;
use lent::write_out;
use rules::Refusal;

// The smallest view that gives the least of the eight turned boards; that board to the front of `out`.
#[tactic(auto, unfolding(rules::specs::Answers::answer, rules::specs::Refusals::first, lent::specs::Lists::list_refusal, lent::specs::Lists::list_out, crate::specs::Canonical::canonical_cells))]
pub fn canonical_of(cells: &[u8], out: &mut [u8]) -> Result<u8, Refusal>
    ensures { (result ≡ answer (list_refusal (cells_refusal cells.now) out.old
        (canonical_cells cells.now)) (canonical_view cells.now))
        × (out.new ≡ list_out (cells_refusal cells.now) out.old (canonical_cells cells.now)) }
{
    cells_refusal(cells)?;
    let found = least_seen(cells);
    write_out(&found.cells, out)?;
    Ok(found.view)
}
