// A record: the field of the view, then the field of the moves. Written whole, and taken apart.
ghost use Rattle.std.specs.Prelude.{◌≡◌, ◌≤◌, length};
ghost use Rattle.stored.specs.Records.{record_of, stored_view, stored_moves};

use super::field::{MOVES, VIEW, behind_field, field_value, keep_field};
use cells::value_at;
use lent::Kept;

// The record of moves in a view: seven bytes more than there are moves.
pub(crate) fn record_of(moves: &[u8], view: u8) -> Kept<232>
    requires { length moves.now ≤ 225 }
    ensures { result ≡ record_of view moves.now }
{
    let mut made = Kept::<232>::new();
    keep_field(&mut made, VIEW, &[view]);
    keep_field(&mut made, MOVES, moves);
    made
}

// The view in a record; in bytes that are none, what stands at its place.
#[tactic(auto, unfolding(crate::specs::Records::stored_view))]
pub(crate) fn stored_view(bytes: &[u8]) -> u8
    ensures { result ≡ stored_view bytes.now }
{
    value_at(field_value(bytes), 0)
}

// The moves in a record; in bytes that are none, what stands at their place.
#[tactic(auto, unfolding(crate::specs::Records::stored_moves))]
pub(crate) fn stored_moves(bytes: &[u8]) -> &[u8]
    ensures { result.now ≡ stored_moves bytes.now }
{
    field_value(behind_field(bytes))
}
