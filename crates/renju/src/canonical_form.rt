// The canonical form of a board, the same in all eight views.
ghost use Rattle.std.specs.Prelude.{◌≡◌};
ghost use Rattle.lent.specs.Lists.{list_refusal, list_out};
ghost use Rattle.cells.specs.Cells.{cells_refusal};
ghost use Rattle.canonical.specs.Canonical.{canonical_view, canonical_cells};
ghost use Rattle.renju.specs.Answers.{word};

use super::answer::word;
use canonical::canonical_of;

// The smallest view that gives the least of the eight turned boards by its cell bytes; that board to the front of `out`.
pub fn renju_canonical(cells: &[u8], out: &mut [u8]) -> u32
    ensures { (result ≡ word (list_refusal (cells_refusal cells.now) out.old (canonical_cells cells.now))
        (canonical_view cells.now))
        × (out.new ≡ list_out (cells_refusal cells.now) out.old (canonical_cells cells.now)) }
{
    word(canonical_of(cells, out))
}
