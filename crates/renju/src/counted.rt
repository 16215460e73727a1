// How many stones each side has.
ghost use Rattle.std.specs.Prelude.{◌≡◌};
ghost use Rattle.cells.specs.Cells.{cells_refusal};
ghost use Rattle.cells.specs.Counts.{counts_of};
ghost use Rattle.renju.specs.Answers.{word};

use super::answer::word;
use cells::counts_of;

// 256 times White's stones plus Black's.
pub fn renju_counts(cells: &[u8]) -> u32
    ensures { result ≡ word (cells_refusal cells.now) (counts_of cells.now) }
{
    word(counts_of(cells))
}
