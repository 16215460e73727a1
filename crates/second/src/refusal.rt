// What is refused, in section 2's order: Unsound, NoPoint, NoNumber, Occupied. The board comes as cell bytes, so Unsound is the only refusal
// of a board.
ghost use Rattle.std.specs.Prelude.{◌≡◌};
ghost use Rattle.rules.specs.Answers.{checked};
ghost use Rattle.cells.specs.Cells.{cells_refusal_for};
ghost use Rattle.second.specs.Lists.{cells_rows_refusal, cells_rows_on_refusal, cells_forbidden_refusal};

use cells::{cells_refusal, cells_refusal_at, value_at};
use rules::{Refusal, colour_refusal, is_colour, kind_refusal, unless};

// Unsound, then NoNumber for a number that is no colour's, then NoNumber for one that is no row kind's.
#[tactic(auto, unfolding(rules::specs::Answers::answer, rules::specs::Refusals::first, cells::specs::Cells::cells_stones_refusal, crate::specs::Lists::cells_rows_refusal))]
pub(crate) fn rows_refusal(cells: &[u8], colour: u8, kind: u8) -> Result<(), Refusal>
    ensures { result ≡ checked (cells_rows_refusal cells.now colour kind) }
{
    cells_refusal(cells)?;
    colour_refusal(colour)?;
    kind_refusal(kind)
}

// Unsound, NoPoint, then NoNumber for a number that is no colour's.
#[tactic(auto, unfolding(rules::specs::Answers::answer, rules::specs::Refusals::first, cells::specs::Cells::cells_refusal_for))]
pub(crate) fn colour_refusal_at(cells: &[u8], code: u8, colour: u8) -> Result<(), Refusal>
    ensures { result ≡ checked (cells_refusal_for cells.now code colour) }
{
    cells_refusal_at(cells, code)?;
    colour_refusal(colour)
}

// .. then NoNumber for one that is no row kind's.
#[tactic(auto, unfolding(rules::specs::Answers::answer, rules::specs::Refusals::first, crate::specs::Lists::cells_rows_on_refusal))]
pub(crate) fn rows_refusal_at(cells: &[u8], code: u8, colour: u8, kind: u8) -> Result<(), Refusal>
    ensures { result ≡ checked (cells_rows_on_refusal cells.now code colour kind) }
{
    colour_refusal_at(cells, code, colour)?;
    kind_refusal(kind)
}

// Unsound, NoPoint, then Occupied, where the plain verdict is not asked.
#[tactic(auto, unfolding(rules::specs::Answers::answer, rules::specs::Refusals::first, rules::specs::Refusals::unless, rules::specs::Grid::is_empty, crate::specs::Lists::cells_forbidden_refusal))]
pub(crate) fn forbidden_refusal(cells: &[u8], code: u8) -> Result<(), Refusal>
    ensures { result ≡ checked (cells_forbidden_refusal cells.now code) }
{
    cells_refusal_at(cells, code)?;
    unless(
        !is_colour(value_at(cells, code as usize)),
        Refusal::Occupied,
    )
}
