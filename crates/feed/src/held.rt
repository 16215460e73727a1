// A client whose moves stand in a lent list, for callers who keep the list themselves.
ghost use Rattle.std.specs.Prelude.{◌≡◌, ◌+◌, length};
ghost use Rattle.rules.specs.Answers.{answer, checked};
ghost use Rattle.feed.specs.Feed.{held_refusal, held_after};

use super::message::{Message, take_refusal};
use rules::{Refusal, unless};

// A message arrives at a client of a game that holds the first `count` bytes of `held`: its code is written behind them, and the new count
// given. Refusals ForeignGame, NotNext, NoPoint, ManyMoves, then NoRoom where the list has no byte left for it; none
// changes a byte.
#[tactic(auto, unfolding(rules::specs::Answers::answer, crate::specs::Feed::held_after))]
pub fn take_held(game: u32, held: &mut [u8], count: u16, message: Message) -> Result<u16, Refusal>
    ensures { (result ≡ answer (held_refusal game (length held.old) count message) (count + 1))
        × (held.new ≡ held_after game held.old count message) }
{
    held_refusal(game, held.len(), count, message)?;
    held[count as usize] = message.code;
    Ok(count + 1)
}

// What is refused of a message where the client's list has room for so many bytes.
#[tactic(auto, unfolding(rules::specs::Answers::answer, rules::specs::Refusals::first, rules::specs::Refusals::unless, crate::specs::Feed::held_refusal))]
fn held_refusal(game: u32, room: usize, count: u16, message: Message) -> Result<(), Refusal>
    ensures { result ≡ checked (held_refusal game room count message) }
{
    take_refusal(game, count, message)?;
    unless((count as usize) < room, Refusal::NoRoom)
}
