// Cells built from moves and from stones.
ghost use Rattle.std.specs.Prelude.{◌≡◌, cond};
ghost use Rattle.rules.specs.Numbers.{opponent_of};
ghost use Rattle.rules.specs.Refusals.{first};
ghost use Rattle.rules.specs.Answers.{answer};
ghost use Rattle.rules.specs.Grid.{play};
ghost use Rattle.cells.specs.Cells.{puts, codes_refusal, moves_cells, stones_cells};

use super::change::set_value;
use super::refusal::codes_refusal;
use rules::{Player, Refusal};

// The cells after moves that alternate from Black's; a point met again is overwritten.
#[tactic(auto, unfolding(rules::specs::Answers::answer, crate::specs::Cells::moves_cells, lent::specs::Lists::zeros))]
pub fn moves_cells(moves: &[u8]) -> Result<[u8; 225], Refusal>
    ensures { result ≡ answer (codes_refusal moves.now) (moves_cells moves.now) }
{
    codes_refusal(moves)?;
    let mut cells = [0u8; 225];
    put_codes(&mut cells, Player::Black, moves, true);
    Ok(cells)
}

// The cells with Black's stones put, then White's.
#[tactic(auto, unfolding(rules::specs::Answers::answer, rules::specs::Refusals::first, crate::specs::Cells::stones_cells, lent::specs::Lists::zeros))]
pub fn stones_cells(blacks: &[u8], whites: &[u8]) -> Result<[u8; 225], Refusal>
    ensures { result ≡ answer (first (codes_refusal blacks.now) (codes_refusal whites.now))
        (stones_cells blacks.now whites.now) }
{
    codes_refusal(blacks)?;
    codes_refusal(whites)?;
    let mut cells = [0u8; 225];
    put_codes(&mut cells, Player::Black, blacks, false);
    put_codes(&mut cells, Player::White, whites, false);
    Ok(cells)
}

// Stones put one after the other from the player's on: alternating, or all of that colour.
fn put_codes(cells: &mut [u8], player: Player, codes: &[u8], alternate: bool)
    ensures { cells.new ≡ play (puts alternate player codes.now) cells.old }
{
    let mut who = player;
    for &code in codes {
        set_value(cells, code, who.number());
        who = next_player(who, alternate);
    }
}

fn next_player(player: Player, alternate: bool) -> Player
    ensures { result ≡ cond alternate (opponent_of player) player }
{
    if alternate { player.opponent() } else { player }
}
