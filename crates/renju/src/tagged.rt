// Stored games: written in tagged form, taken back to one code byte a move, and asked for their view.
ghost use Rattle.std.specs.Prelude.{◌≡◌};
ghost use Rattle.lent.specs.Lists.{list_out};
ghost use Rattle.stored.specs.Records.{record_of, stored_view, stored_moves, record_refusal, back_refusal, tagged_refusal};
ghost use Rattle.renju.specs.Answers.{word, list_word};

use super::answer::word;
use stored::{from_tagged, tagged_view, to_tagged};

// The record of moves in a view: how many bytes it has. 0 is the view of a game in the old form.
pub fn renju_to_tagged(moves: &[u8], view: u8, out: &mut [u8]) -> u32
    ensures { (result ≡ list_word 1 (tagged_refusal view moves.now) out.old (record_of view moves.now))
        × (out.new ≡ list_out (tagged_refusal view moves.now) out.old (record_of view moves.now)) }
{
    word(to_tagged(moves, view, out))
}

// The moves of a record in view 0: how many they are.
pub fn renju_from_tagged(record: &[u8], out: &mut [u8]) -> u32
    ensures { (result ≡ list_word 1 (back_refusal «record».now) out.old (stored_moves «record».now))
        × (out.new ≡ list_out (back_refusal «record».now) out.old (stored_moves «record».now)) }
{
    word(from_tagged(record, out))
}

// The view of a record.
pub fn renju_tagged_view(record: &[u8]) -> u32
    ensures { result ≡ word (record_refusal «record».now) (stored_view «record».now) }
{
    word(tagged_view(record))
}
