// How many stones each side has: the caption of a picture.
ghost use Rattle.std.specs.Prelude.{◌≡◌, length};
ghost use Rattle.rules.specs.Answers.{answer};
ghost use Rattle.cells.specs.Cells.{cells_refusal};
ghost use Rattle.cells.specs.Counts.{stones_count, counts_of};

use super::refusal::cells_refusal;
use rules::{Player, Refusal};

// 256 times White's stones plus Black's.
#[tactic(auto, unfolding(rules::specs::Answers::answer))]
pub fn counts_of(cells: &[u8]) -> Result<u16, Refusal>
    ensures { result ≡ answer (cells_refusal cells.now) (counts_of cells.now) }
{
    cells_refusal(cells)?;
    let whites = stones_count(cells, Player::White);
    let blacks = stones_count(cells, Player::Black);
    Ok(256 * (whites as u16) + blacks as u16)
}

// How many of the 225 points hold the player's stone. No cell ends the loop, so that many are compared at once.
fn stones_count(cells: &[u8], player: Player) -> u8
    requires { length cells.now ≡ 225 }
    ensures { result ≡ stones_count player cells.now }
{
    let colour = player.number();
    let mut n = 0u8;
    for i in 0..225 {
        n += (cells[i] == colour) as u8;
    }
    n
}
