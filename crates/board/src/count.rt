// The stones of a board counted: read off its lines, moved by one point that changes, and tested.
ghost use Rattle.std.specs.Prelude.{◌≡◌};
ghost use Rattle.rules.specs.Bit.{bit, count_of};
ghost use Rattle.rules.specs.Answers.{checked};
ghost use Rattle.board.specs.Boards.{board_with, stones_shown, moved_count, board_refusal};

use grid::{lines_refusal, mask_on};
use rules::{Player, Refusal, unless};

// How many of the 225 points show the player's stone, column by column.
pub(crate) fn count_on(lines: &[u16; 144], player: Player) -> u8
    ensures { result ≡ stones_shown player lines.now }
{
    let mut n = 0u8;
    for x in 0..15u8 {
        n += column_stones(mask_on(lines, x, player));
    }
    n
}

// How many of the 15 cells of a column hold a stone, by its mask.
fn column_stones(mask: u16) -> u8
    ensures { result ≡ count_of 15 (bit mask) }
{
    u16::count_ones(mask % 32768) as u8
}

// A colour's count after one point is changed: `off` where it held that colour, `on` where it holds it now. A byte's ends stay: a board
// whose count is at one of them is not sound, and refused.
#[tactic(auto, unfolding(crate::specs::Boards::moved_count))]
pub(crate) fn moved_count(count: u8, off: bool, on: bool) -> u8
    ensures { result ≡ moved_count count off on }
{
    match (off, on) {
        (true, false) => count.saturating_sub(1),
        (false, true) => count.saturating_add(1),
        _ => count,
    }
}

// Unsound where the lines are not sound, or a count is not the number of the points with that colour.
pub fn refusal_on(lines: &[u16; 144], blacks: u8, whites: u8) -> Result<(), Refusal>
    ensures { result ≡ checked (board_refusal (board_with lines.now blacks whites)) }
{
    lines_refusal(lines)?;
    let black_stones = count_on(lines, Player::Black);
    let white_stones = count_on(lines, Player::White);
    unless(
        blacks == black_stones && whites == white_stones,
        Refusal::Unsound,
    )
}
