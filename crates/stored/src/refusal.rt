// What is refused of a record, in document 02's order: 15, 14, 8, on the way back 16; and of what is to be written: 14, 8, 12.
ghost use Rattle.std.specs.Prelude.{◌≡◌};
ghost use Rattle.rules.specs.Answers.{checked};
ghost use Rattle.stored.specs.Records.{begins_with_view, is_moves_alone, is_record, record_refusal, back_refusal, tagged_refusal};

use super::field::{MOVES, VIEW, behind_field, field_length, has_field};
use super::record::{stored_moves, stored_view};
use cells::moves_refusal;
use point::view_refusal;
use rules::{Refusal, unless};

// Whether the view's field stands in front: tag 1, length 1, 0 to 7.
#[tactic(auto, unfolding(crate::specs::Records::begins_with_view))]
fn begins_with_view(bytes: &[u8]) -> bool
    ensures { result ≡ begins_with_view bytes.now }
{
    has_field(bytes, VIEW) && field_length(bytes) == 1 && stored_view(bytes) <= 7
}

// Whether bytes are the field of the moves, tag 2, and nothing after.
#[tactic(auto, unfolding(crate::specs::Records::is_moves_alone))]
fn is_moves_alone(bytes: &[u8]) -> bool
    ensures { result ≡ is_moves_alone bytes.now }
{
    has_field(bytes, MOVES) && behind_field(bytes).is_empty()
}

#[tactic(auto, unfolding(crate::specs::Records::is_record))]
fn is_record(bytes: &[u8]) -> bool
    ensures { result ≡ is_record bytes.now }
{
    begins_with_view(bytes) && is_moves_alone(behind_field(bytes))
}

// Malformed, then ManyMoves and NoPoint of its moves.
#[tactic(auto, unfolding(rules::specs::Answers::answer, rules::specs::Refusals::first, rules::specs::Refusals::unless, crate::specs::Records::record_refusal))]
pub(crate) fn record_refusal(bytes: &[u8]) -> Result<(), Refusal>
    ensures { result ≡ checked (record_refusal bytes.now) }
{
    unless(is_record(bytes), Refusal::Malformed)?;
    moves_refusal(stored_moves(bytes))
}

// .. then TurnedView for a view other than 0.
#[tactic(auto, unfolding(rules::specs::Answers::answer, rules::specs::Refusals::first, rules::specs::Refusals::unless, crate::specs::Records::back_refusal))]
pub(crate) fn back_refusal(bytes: &[u8]) -> Result<(), Refusal>
    ensures { result ≡ checked (back_refusal bytes.now) }
{
    record_refusal(bytes)?;
    unless(stored_view(bytes) == 0, Refusal::TurnedView)
}

// Of moves and a view that are to be written.
#[tactic(auto, unfolding(rules::specs::Answers::answer, rules::specs::Refusals::first, crate::specs::Records::tagged_refusal))]
pub(crate) fn tagged_refusal(moves: &[u8], view: u8) -> Result<(), Refusal>
    ensures { result ≡ checked (tagged_refusal view moves.now) }
{
    moves_refusal(moves)?;
    view_refusal(view)
}
