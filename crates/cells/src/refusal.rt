// What is refused of cell bytes and of those who ask about them, in section 2's order: 9, 8, 12.
ghost use Rattle.std.specs.Prelude.{◌≡◌, leb, length, get_or};
ghost use Rattle.rules.specs.Answers.{checked};
ghost use Rattle.rules.specs.Tools.{all_below};
ghost use Rattle.cells.specs.Cells.{cells_refusal, codes_refusal, moves_refusal, cells_refusal_at, cells_refusal_for};
ghost use Rattle.cells.specs.Cells.{cells_neighbours_refusal};

use point::code_refusal;
use rules::{Refusal, colour_refusal, unless};

// Unsound for cell bytes of another length than 225, or with a byte over 2.
#[tactic(auto, unfolding(rules::specs::Answers::answer, rules::specs::Refusals::unless, crate::specs::Cells::cells_refusal))]
pub fn cells_refusal(cells: &[u8]) -> Result<(), Refusal>
    ensures { result ≡ checked (cells_refusal cells.now) }
{
    unless(cells.len() == 225 && all_small(cells, 2), Refusal::Unsound)
}

// Whether no byte is above a limit: whether the greatest is not. No byte ends the loop, so that many are compared at once; of a long list
// all would be read, so it is asked of 225 bytes at most.
fn all_small(bytes: &[u8], limit: u8) -> bool
    ensures { result ≡ all_below (length bytes.now) (λ p. leb (get_or bytes.now p 0) limit) }
{
    let mut most = 0u8;
    for &byte in bytes {
        most = most.max(byte);
    }
    most <= limit
}

// Whether a list of codes names points only: NoPoint where one does not.
#[tactic(auto, unfolding(rules::specs::Answers::answer, rules::specs::Refusals::unless, crate::specs::Cells::codes_refusal, rules::specs::Refusals::code_refusal))]
pub fn codes_refusal(codes: &[u8]) -> Result<(), Refusal>
    ensures { result ≡ checked (codes_refusal codes.now) }
{
    for &code in codes {
        code_refusal(code)?;
    }
    Ok(())
}

// What is refused of the moves of a game: ManyMoves for more than 225 of them, then NoPoint. Those that are left are few enough to be compared
// at once; `codes_refusal`, of a list of any length, ends at the first that is no point's.
#[tactic(auto, using(crate::proofs::Given::codes_small), unfolding(rules::specs::Answers::answer, rules::specs::Refusals::first, rules::specs::Refusals::unless, crate::specs::Cells::moves_refusal, crate::specs::Cells::codes_refusal))]
pub fn moves_refusal(moves: &[u8]) -> Result<(), Refusal>
    ensures { result ≡ checked (moves_refusal moves.now) }
{
    unless(moves.len() <= 225, Refusal::ManyMoves)?;
    unless(all_small(moves, 224), Refusal::NoPoint)
}

// Unsound, then NoPoint for a code over 224.
#[tactic(auto, unfolding(rules::specs::Answers::answer, rules::specs::Refusals::first, crate::specs::Cells::cells_refusal_at))]
pub fn cells_refusal_at(cells: &[u8], code: u8) -> Result<(), Refusal>
    ensures { result ≡ checked (cells_refusal_at cells.now code) }
{
    cells_refusal(cells)?;
    code_refusal(code)
}

// .. then NoNumber for a number that is no colour's.
#[tactic(auto, unfolding(rules::specs::Answers::answer, rules::specs::Refusals::first, crate::specs::Cells::cells_refusal_for))]
pub(crate) fn cells_refusal_for(cells: &[u8], code: u8, colour: u8) -> Result<(), Refusal>
    ensures { result ≡ checked (cells_refusal_for cells.now code colour) }
{
    cells_refusal_at(cells, code)?;
    colour_refusal(colour)
}

// The neighbours of a point.
#[tactic(auto, unfolding(rules::specs::Answers::answer, rules::specs::Refusals::first, rules::specs::Refusals::unless, rules::specs::Refusals::distance_refusal, crate::specs::Cells::cells_neighbours_refusal))]
pub(crate) fn cells_neighbors_refusal(cells: &[u8], code: u8, distance: u8) -> Result<(), Refusal>
    ensures { result ≡ checked (cells_neighbours_refusal cells.now code distance) }
{
    cells_refusal_at(cells, code)?;
    unless(distance <= 14, Refusal::NoNumber)
}
