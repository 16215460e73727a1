// What is refused to those who ask for a list, in section 2's order: Unsound, NoPoint, NoNumber, NoPlace.
ghost use Rattle.std.specs.Prelude.{◌≡◌};
ghost use Rattle.rules.specs.Tools.{all_below};
ghost use Rattle.rules.specs.Answers.{checked};
ghost use Rattle.lists.specs.Lists.{stones_refusal, rows_refusal, mask_cell, mask_refusal};

use board::Board;
use masks::bit_at;
use point::{key_refusal, key_size};
use rules::{Refusal, colour_refusal, kind_refusal, unless};

// The stones of a colour.
#[tactic(auto, unfolding(rules::specs::Answers::answer, rules::specs::Refusals::first, crate::specs::Lists::stones_refusal))]
pub(crate) fn stones_refusal(board: Board, colour: u8) -> Result<(), Refusal>
    ensures { result ≡ checked (stones_refusal board colour) }
{
    board.refusal()?;
    colour_refusal(colour)
}

// A colour's rows of a kind.
#[tactic(auto, unfolding(rules::specs::Answers::answer, rules::specs::Refusals::first, crate::specs::Lists::rows_refusal))]
pub(crate) fn rows_refusal(board: Board, colour: u8, kind: u8) -> Result<(), Refusal>
    ensures { result ≡ checked (rows_refusal board colour kind) }
{
    stones_refusal(board, colour)?;
    kind_refusal(kind)
}

// The points of a mask of cells: NoPlace for the key, then NoPlace for a cell that is not on its line.
#[tactic(auto, unfolding(rules::specs::Answers::answer, rules::specs::Refusals::first, rules::specs::Refusals::unless, crate::specs::Lists::mask_refusal))]
pub(crate) fn mask_refusal(key: u8, j: u8, mask: u8) -> Result<(), Refusal>
    ensures { result ≡ checked (mask_refusal key j mask) }
{
    key_refusal(key)?;
    unless(all_on(key_size(key), j, mask), Refusal::NoPlace)
}

// Whether the cells j + k are on a line of this size, for all set bits k.
fn all_on(size: u8, j: u8, mask: u8) -> bool
    ensures { result ≡ all_below 8 (mask_cell size j mask) }
{
    for k in 0..8u8 {
        if bit_at(mask as u16, k) && size as u16 <= j as u16 + k as u16 {
            return false;
        }
    }
    true
}
