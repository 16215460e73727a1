// The cells that a text says to the live entry: stones or moves.
ghost use Rattle.std.specs.Prelude.{◌≡◌, ◌≤◌, length};
ghost use Rattle.rules.specs.Answers.{answer};
ghost use Rattle.text.specs.Points.{points_refusal};
ghost use Rattle.text.specs.Reading.{stones_text_refusal, stones_in, moves_in, read_refusal, read_cells};

use super::bytes::{has, parted, text_refusal, trimmed};
use super::points::codes_in;
use cells::{moves_cells, stones_cells};
use lent::Kept;
use rules::{Refusal, unless};

// With a slash stones, else moves: a lone point is one move, Black's. No diagram is read here.
#[tactic(auto, unfolding(rules::specs::Answers::answer, rules::specs::Refusals::first, crate::specs::Reading::read_refusal, crate::specs::Reading::form_refusal, crate::specs::Reading::read_cells))]
pub fn read_cells(text: &[u8]) -> Result<[u8; 225], Refusal>
    ensures { result ≡ answer (read_refusal text.now) (read_cells text.now) }
{
    text_refusal(text)?;
    let t = trimmed(text);
    if has(text, b'/') {
        stones_in(t)
    } else {
        moves_in(t)
    }
}

// Black's list, a slash, White's list. A second slash is refused, behind whatever is refused of the lists.
#[tactic(auto, unfolding(rules::specs::Answers::answer, rules::specs::Refusals::first, rules::specs::Refusals::unless, crate::specs::Reading::stones_text_refusal, crate::specs::Reading::slash_refusal, crate::specs::Reading::stones_in))]
fn stones_in(t: &[u8]) -> Result<[u8; 225], Refusal>
    requires { length t.now ≤ 4096 }
    ensures { result ≡ answer (stones_text_refusal t.now) (stones_in t.now) }
{
    let (black, behind) = parted(t, b'/');
    let (white, third) = parted(behind.unwrap_or(&[]), b'/');
    let mut blacks = Kept::new();
    codes_in(black, &mut blacks)?;
    let mut whites = Kept::new();
    codes_in(white, &mut whites)?;
    unless(third.is_none(), Refusal::NoColumn)?;
    stones_cells(blacks.as_slice(), whites.as_slice())
}

// Moves in turn, Black's first.
#[tactic(auto, unfolding(rules::specs::Answers::answer, crate::specs::Reading::moves_in))]
fn moves_in(t: &[u8]) -> Result<[u8; 225], Refusal>
    requires { length t.now ≤ 4096 }
    ensures { result ≡ answer (points_refusal t.now) (moves_in t.now) }
{
    let mut moves = Kept::new();
    codes_in(t, &mut moves)?;
    moves_cells(moves.as_slice())
}
