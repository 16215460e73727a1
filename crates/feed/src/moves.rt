// A list of at most 225 codes by value: what a client holds, and what a server has.
ghost use Rattle.std.specs.Prelude.{◌≡◌, get_or};
ghost use Rattle.rules.specs.Answers.{answer};
ghost use Rattle.cells.specs.Cells.{codes_refusal, moves_cells};
ghost use Rattle.feed.specs.Feed.{list_of, size_of, no_moves, grown, shrunk};

use cells::moves_cells;
use rules::Refusal;

// The first `count` codes are the list. A count over 225 is read as 225, whoever made it.
// stays: a `Kept` is not copied, and a list goes by value, as document 02 has it; anybody may make one of any count.
#[derive(Clone, Copy, Debug, PartialEq, Eq)]
pub struct Moves {
    pub codes: [u8; 225],
    pub count: u16,
}

impl Moves {
    #[tactic(auto, unfolding(crate::specs::Feed::no_moves, lent::specs::Lists::zeros))]
    pub fn new() -> Moves
        ensures { result ≡ no_moves }
    {
        Moves {
            codes: [0u8; 225],
            count: 0,
        }
    }

    // How many moves the list has.
    pub fn size(self) -> u16
        ensures { result ≡ size_of self }
    {
        self.count.min(225)
    }

    // The board after these moves, as cells: NoPoint where a code is no point's.
    pub fn cells(self) -> Result<[u8; 225], Refusal>
        ensures { result ≡ answer (codes_refusal (list_of self)) (moves_cells (list_of self)) }
    {
        moves_cells(&self.codes[..self.size() as usize])
    }

    // The code at a place from 0; 0 where there is none.
    pub(crate) fn at(self, place: u16) -> u8
        ensures { result ≡ get_or (list_of self) place 0 }
    {
        if place < self.size() {
            self.codes[place as usize]
        } else {
            0
        }
    }

    // The list with one move more; a full one as it is.
    #[tactic(auto, unfolding(crate::specs::Feed::grown))]
    pub(crate) fn grown(self, code: u8) -> Moves
        ensures { result ≡ grown self code }
    {
        let n = self.size();
        if 225 <= n {
            return self;
        }
        let mut codes = self.codes;
        codes[n as usize] = code;
        Moves {
            codes,
            count: n + 1,
        }
    }

    // The list without its last move; an empty one stays empty.
    #[tactic(auto, unfolding(crate::specs::Feed::shrunk))]
    pub(crate) fn shrunk(self) -> Moves
        ensures { result ≡ shrunk self }
    {
        let codes = self.codes;
        Moves {
            codes,
            count: self.size().saturating_sub(1),
        }
    }
}
