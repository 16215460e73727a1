// What goes over the line: messages to the client, answers to the server; and when a move is refused.
ghost use Rattle.std.specs.Prelude.{◌≡◌};
ghost use Rattle.rules.specs.Answers.{checked};
ghost use Rattle.feed.specs.Feed.{add_refusal, take_refusal};

use point::code_refusal;
use rules::{Refusal, unless};

// A move of a game: its number from 1, and its code.
#[derive(Clone, Copy, Debug, PartialEq, Eq)]
pub struct Message {
    pub game: u32,
    pub number: u16,
    pub code: u8,
}

// What a client says of itself: its game number, and how many moves it holds.
#[derive(Clone, Copy, Debug, PartialEq, Eq)]
pub struct Answer {
    pub game: u32,
    pub count: u16,
}

// Of a code that is to stand behind `count` moves: NoPoint, then ManyMoves for a 226th move.
#[tactic(auto, unfolding(rules::specs::Answers::answer, rules::specs::Refusals::first, rules::specs::Refusals::unless, crate::specs::Feed::add_refusal))]
pub(crate) fn add_refusal(count: u16, code: u8) -> Result<(), Refusal>
    ensures { result ≡ checked (add_refusal count code) }
{
    code_refusal(code)?;
    unless(count < 225, Refusal::ManyMoves)
}

// Of a message at a client of a game that holds `count` moves: ForeignGame, then NotNext for a number that is not next, then NoPoint and
// ManyMoves.
#[tactic(auto, unfolding(rules::specs::Answers::answer, rules::specs::Refusals::first, rules::specs::Refusals::unless, crate::specs::Feed::take_refusal))]
pub(crate) fn take_refusal(game: u32, count: u16, message: Message) -> Result<(), Refusal>
    ensures { result ≡ checked (take_refusal game count message) }
{
    unless(message.game == game, Refusal::ForeignGame)?;
    // as u32, since the number behind the last count has no u16
    unless(message.number as u32 == count as u32 + 1, Refusal::NotNext)?;
    add_refusal(count, message.code)
}
