// The move feed: a message taken by a client that keeps its list in lent bytes, and two held lists compared.
ghost use Rattle.std.specs.Prelude.{◌≡◌, ◌+◌, length};
ghost use Rattle.feed.specs.Feed.{held_refusal, held_after};
ghost use Rattle.feed.specs.Compare.{missing_refusal, longer_of};
ghost use Rattle.renju.specs.Answers.{word};
ghost use Rattle.renju.specs.Feeds.{message_by};

use super::answer::word;
use feed::{Message, longer, take_held};

// A message at a client that holds `count` moves of a game in the leading bytes of `held`: the new count; the code stands behind them.
pub fn renju_feed_take(
    game: u32,
    held: &mut [u8],
    count: u16,
    of_game: u32,
    number: u16,
    code: u8,
) -> u32
    ensures { (result ≡ word (held_refusal game (length held.old) count (message_by of_game number code)) (count + 1))
        × (held.new ≡ held_after game held.old count (message_by of_game number code)) }
{
    let message = Message {
        game: of_game,
        number,
        code,
    };
    word(take_held(game, held, count, message))
}

// Which of two held lists is longer, where one begins the other: 0 for neither, 1 for the first, 2 for the second.
pub fn renju_feed_missing(first: &[u8], second: &[u8]) -> u32
    ensures { result ≡ word (missing_refusal first.now second.now)
        (longer_of first.now second.now) }
{
    word(longer(first, second))
}
