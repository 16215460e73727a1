// The fronts: a game in the old form written in the new one, a record taken back to the old form, and the view of a record.
ghost use Rattle.std.specs.Prelude.{◌≡◌};
ghost use Rattle.rules.specs.Answers.{answer};
ghost use Rattle.lent.specs.Lists.{list_out, counted};
ghost use Rattle.cells.specs.Cells.{moves_refusal};
ghost use Rattle.stored.specs.Records.{record_of, stored_view, stored_moves, record_refusal, back_refusal, tagged_refusal};

use super::record::{record_of, stored_moves, stored_view};
use super::refusal::{back_refusal, record_refusal, tagged_refusal};
use lent::{Kept, hand_out};
use rules::Refusal;

// The record of moves in a view, and how many bytes it has. Refusals ManyMoves, NoPoint, NoNumber, NoRoom.
#[tactic(auto, unfolding(rules::specs::Answers::answer, rules::specs::Refusals::first, lent::specs::Lists::list_refusal, lent::specs::Lists::list_out, lent::specs::Lists::counted))]
pub fn to_tagged(moves: &[u8], view: u8, out: &mut [u8]) -> Result<u16, Refusal>
    ensures { (result ≡ counted 1 (tagged_refusal view moves.now) out.old (record_of view moves.now))
        × (out.new ≡ list_out (tagged_refusal view moves.now) out.old (record_of view moves.now)) }
{
    tagged_refusal(moves, view)?;
    let made = record_of(moves, view);
    hand_out(made.as_slice(), made.len() as u16, out)
}

// Old to new: "Old to new writes view 0." Refusals ManyMoves, NoPoint, NoRoom.
pub fn old_to_tagged(moves: &[u8], out: &mut [u8]) -> Result<u16, Refusal>
    ensures { (result ≡ counted 1 (moves_refusal moves.now) out.old (record_of 0 moves.now))
        × (out.new ≡ list_out (moves_refusal moves.now) out.old (record_of 0 moves.now)) }
{
    to_tagged(moves, 0, out)
}

// New to old: the moves of a record, and how many they are. "New to old is given only for view 0." Refusals Malformed, ManyMoves, NoPoint,
// TurnedView, NoRoom.
#[tactic(auto, unfolding(rules::specs::Answers::answer, rules::specs::Refusals::first, lent::specs::Lists::list_refusal, lent::specs::Lists::list_out, lent::specs::Lists::counted))]
pub fn from_tagged(bytes: &[u8], out: &mut [u8]) -> Result<u16, Refusal>
    ensures { (result ≡ counted 1 (back_refusal bytes.now) out.old (stored_moves bytes.now))
        × (out.new ≡ list_out (back_refusal bytes.now) out.old (stored_moves bytes.now)) }
{
    back_refusal(bytes)?;
    // kept first: a copy from lent bytes to lent bytes has LLVM ask for `memmove`, which the archive would need for this alone
    let mut moves = Kept::<225>::new();
    moves.keep(stored_moves(bytes));
    hand_out(moves.as_slice(), moves.len() as u16, out)
}

// The view of a record. Refusals Malformed, ManyMoves, NoPoint.
#[tactic(auto, unfolding(rules::specs::Answers::answer))]
pub fn tagged_view(bytes: &[u8]) -> Result<u8, Refusal>
    ensures { result ≡ answer (record_refusal bytes.now) (stored_view bytes.now) }
{
    record_refusal(bytes)?;
    Ok(stored_view(bytes))
}
