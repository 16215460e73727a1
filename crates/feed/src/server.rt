// The server of one table by value.
ghost use Rattle.std.specs.Prelude.{◌≡◌};
ghost use Rattle.feed.specs.Feed.{new_server, adds_to, takes_back, message_answer, hears, holds_all};

use super::message::{Answer, Message, add_refusal};
use super::moves::Moves;
use rules::{Refusal, unless};

// Its game number, the moves of that game, and how many of them the client of that game is known to hold. The next game number is always one more.
#[derive(Clone, Copy, Debug, PartialEq, Eq)]
pub struct Server {
    pub game: u32,
    pub moves: Moves,
    pub heard: u16,
}

impl Server {
    // A server of a table where nothing is played.
    #[tactic(auto, unfolding(crate::specs::Feed::new_server))]
    pub fn new(game: u32) -> Server
        ensures { result ≡ new_server game }
    {
        Server {
            game,
            moves: Moves::new(),
            heard: 0,
        }
    }

    // The server with a move added: NoPoint, then ManyMoves, and its caller's server is as it was.
    #[tactic(auto, unfolding(rules::specs::Answers::answer, crate::specs::Feed::adds_to))]
    pub fn add(self, code: u8) -> Result<Server, Refusal>
        ensures { result ≡ adds_to self code }
    {
        add_refusal(self.moves.size(), code)?;
        Ok(Server {
            game: self.game,
            moves: self.moves.grown(code),
            heard: self.heard,
        })
    }

    // The server with its last move taken back, and a new game number opened: ForeignGame where there is none left.
    #[tactic(auto, unfolding(rules::specs::Answers::answer, rules::specs::Refusals::unless, crate::specs::Feed::takes_back, crate::specs::Feed::back_refusal))]
    pub fn take_back(self) -> Result<Server, Refusal>
        ensures { result ≡ takes_back self }
    {
        unless(self.game != u32::MAX, Refusal::ForeignGame)?;
        Ok(Server {
            game: self.game + 1,
            moves: self.moves.shrunk(),
            heard: 0,
        })
    }

    // The message of move n, from 1: NotNext where the game has no such move.
    #[tactic(auto, unfolding(rules::specs::Answers::answer, rules::specs::Refusals::unless, crate::specs::Feed::message_answer, crate::specs::Feed::has_move))]
    pub fn message(self, number: u16) -> Result<Message, Refusal>
        ensures { result ≡ message_answer self number }
    {
        unless(1 <= number && number <= self.moves.size(), Refusal::NotNext)?;
        Ok(Message {
            game: self.game,
            number,
            code: self.moves.at(number - 1),
        })
    }

    // An answer is heard: for the server's own game number only, and what was heard before is not lost. An answer that tells more moves
    // than the game has is no client's of this game.
    #[tactic(auto, unfolding(crate::specs::Feed::hears))]
    pub fn hear(self, answer: Answer) -> Server
        ensures { result ≡ hears self answer }
    {
        if answer.game != self.game || self.moves.size() < answer.count {
            return self;
        }
        Server {
            game: self.game,
            moves: self.moves,
            heard: self.heard.max(answer.count),
        }
    }

    // Whether the client of its game is known to hold all moves.
    #[tactic(auto, unfolding(crate::specs::Feed::holds_all))]
    pub fn holds_all(self) -> bool
        ensures { result ≡ holds_all self }
    {
        self.heard == self.moves.size()
    }
}
