// The fronts: a game's moves written as SGF text, and an SGF text read to moves.
ghost use Rattle.std.specs.Prelude.{◌≡◌};
ghost use Rattle.rules.specs.Answers.{answer};
ghost use Rattle.lent.specs.Lists.{list_out, counted};
ghost use Rattle.cells.specs.Cells.{moves_refusal};
ghost use Rattle.sgf.specs.Games.{sgf_text, sgf_refusal, sgf_moves};

use super::moves::{behind_front, is_front, moves_in};
use super::written::game_text;
use cells::moves_refusal;
use lent::{Kept, hand_out};
use rules::{Refusal, unless};
use text::text_refusal;

// The SGF text of a game's moves, and how many bytes it has. Refusals 14, 8, 13.
#[tactic(auto, unfolding(rules::specs::Answers::answer, rules::specs::Refusals::first, rules::specs::Refusals::unless, lent::specs::Lists::list_refusal, lent::specs::Lists::list_out, lent::specs::Lists::counted))]
pub fn to_sgf(moves: &[u8], out: &mut [u8]) -> Result<u16, Refusal>
    ensures { (result ≡ counted 1 (moves_refusal moves.now) out.old (sgf_text moves.now))
        × (out.new ≡ list_out (moves_refusal moves.now) out.old (sgf_text moves.now)) }
{
    moves_refusal(moves)?;
    let text = game_text(moves);
    hand_out(text.as_slice(), text.len() as u16, out)
}

// The moves of an SGF text, as codes, and how many they are. Refusals 1, 2, 20, 14, 13.
#[tactic(auto, unfolding(rules::specs::Answers::answer, rules::specs::Refusals::first, rules::specs::Refusals::unless, lent::specs::Lists::list_refusal, lent::specs::Lists::list_out, lent::specs::Lists::counted))]
pub fn from_sgf(text: &[u8], out: &mut [u8]) -> Result<u16, Refusal>
    ensures { (result ≡ counted 1 (sgf_refusal text.now) out.old (sgf_moves text.now))
        × (out.new ≡ list_out (sgf_refusal text.now) out.old (sgf_moves text.now)) }
{
    let moves = game_in(text)?;
    hand_out(moves.as_slice(), moves.len() as u16, out)
}

// The moves themselves. A text of 4,096 bytes may have more than a game has, which are refused.
#[tactic(auto, unfolding(rules::specs::Answers::answer, rules::specs::Refusals::first, crate::specs::Games::sgf_refusal))]
fn game_in(text: &[u8]) -> Result<Kept<682>, Refusal>
    ensures { result ≡ answer (sgf_refusal text.now) (sgf_moves text.now) }
{
    text_refusal(text)?;
    unless(is_front(text), Refusal::OutsideSubset)?;
    let moves = moves_in(behind_front(text))?;
    unless(moves.len() <= 225, Refusal::ManyMoves)?;
    Ok(moves)
}
