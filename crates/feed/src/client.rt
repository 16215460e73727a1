// The thin client by value.
ghost use Rattle.std.specs.Prelude.{◌≡◌};
ghost use Rattle.feed.specs.Feed.{new_client, answer_of, takes, grown_client};

use super::message::{Answer, Message, take_refusal};
use super::moves::Moves;
use rules::Refusal;

// Its game number, and the moves of that game that it holds.
#[derive(Clone, Copy, Debug, PartialEq, Eq)]
pub struct Client {
    pub game: u32,
    pub moves: Moves,
}

// What a client makes of a message: whether it took it or why not, the client after it, and its answer, to a refused message as well.
// stays: a refused message is answered too, so that the client and the answer stand beside the `Result`.
#[derive(Clone, Copy, Debug, PartialEq, Eq)]
pub struct Taken {
    pub taken: Result<(), Refusal>,
    pub client: Client,
    pub answer: Answer,
}

impl Client {
    // A client started for a game, empty.
    #[tactic(auto, unfolding(crate::specs::Feed::new_client))]
    pub fn new(game: u32) -> Client
        ensures { result ≡ new_client game }
    {
        Client {
            game,
            moves: Moves::new(),
        }
    }

    // Its answer when it is only asked.
    #[tactic(auto, unfolding(crate::specs::Feed::answer_of))]
    pub fn ask(self) -> Answer
        ensures { result ≡ answer_of self }
    {
        Answer {
            game: self.game,
            count: self.moves.size(),
        }
    }

    // A message arrives. Only the next move of its own game is taken: ForeignGame, NotNext, NoPoint, ManyMoves, and a refusal changes
    // nothing.
    #[tactic(auto, unfolding(rules::specs::Answers::answer, crate::specs::Feed::takes, crate::specs::Feed::after))]
    pub fn take(self, message: Message) -> Taken
        ensures { result ≡ takes self message }
    {
        let taken = take_refusal(self.game, self.moves.size(), message);
        let client = if taken.is_ok() {
            self.grown(message.code)
        } else {
            self
        };
        Taken {
            taken,
            client,
            answer: client.ask(),
        }
    }

    // The client with one move more.
    fn grown(self, code: u8) -> Client
        ensures { result ≡ grown_client self code }
    {
        Client {
            game: self.game,
            moves: self.moves.grown(code),
        }
    }
}
