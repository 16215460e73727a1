// The verdict at one point of 225 cell bytes: 0 none, 1 double three, 2 double four, 3 overline.
ghost use Rattle.std.specs.Prelude.{◌≡◌};
ghost use Rattle.rules.specs.Numbers.{verdict_no};
ghost use Rattle.rules.specs.Forbidden.{plain_of, strict_of};
ghost use Rattle.cells.specs.Cells.{cells_refusal_at};
ghost use Rattle.referee.specs.Answers.{forbidden_refusal};
ghost use Rattle.renju.specs.Answers.{word, refusal_of};

use super::answer::{refused, word};
use board::Board;
use referee::{forbidden, forbidden_strict_of};

// The plain verdict, at an empty point.
pub fn renju_forbidden(cells: &[u8], code: u8) -> u32
    ensures { result ≡ word (refusal_of cells.now (λ b. forbidden_refusal b code))
        (verdict_no (plain_of cells.now code)) }
{
    match Board::from_cells(cells) {
        Ok(board) => word(forbidden(board, code)),
        Err(refusal) => refused(refusal),
    }
}

// The strict verdict: none at an occupied point, and where the stone completes a five.
pub fn renju_forbidden_strict(cells: &[u8], code: u8) -> u32
    ensures { result ≡ word (cells_refusal_at cells.now code) (verdict_no (strict_of cells.now code)) }
{
    word(forbidden_strict_of(cells, code))
}
