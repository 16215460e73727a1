// A board by value: its 72 lines as 144 masks, entry k the black mask of the line of key k and entry 72 + k its white mask, and how many
// stones each side has.
ghost use Rattle.std.specs.Prelude.{◌≡◌, eqb, get_or};
ghost use Rattle.rules.specs.Numbers.{player_of, kind_of};
ghost use Rattle.rules.specs.Refusals.{first, view_refusal};
ghost use Rattle.rules.specs.Answers.{answer, checked, stone_there};
ghost use Rattle.rules.specs.Grid.{start_masks, rows_through};
ghost use Rattle.rules.specs.Views.{turn_cells};
ghost use Rattle.lent.specs.Lists.{zeros, list_refusal, list_out};
ghost use Rattle.cells.specs.Cells.{cells_refusal, codes_refusal, moves_cells, stones_cells};
ghost use Rattle.board.specs.Answers.{board_answer, read_answer, put_answer, remove_answer};
ghost use Rattle.board.specs.Boards.{board_from, changed_board, cells, board_of, board_refusal, refusal_at, refusal_for, rows_on_refusal};

use super::count::{count_on, moved_count, refusal_on};
use cells::{cells_refusal, moves_cells, stones_cells, turned_cells};
use grid::{cell_on, cells_on, lines_of, put_on, remove_on};
use lent::hand_out;
use point::{code_refusal, view_refusal};
use rules::{Player, Refusal, RowKind, colour_refusal, kind_refusal};

#[derive(Clone, Copy)]
pub struct Board {
    pub lines: [u16; 144],
    pub blacks: u8,
    pub whites: u8,
}

impl Board {
    // The empty board.
    pub fn new() -> Board
        ensures { result ≡ board_of (zeros 225) }
    {
        Board::from_lines([0u16; 144])
    }

    // The board that has these lines, sound or not, with the stones that they show counted: the one place where a board is made.
    pub fn from_lines(lines: [u16; 144]) -> Board
        ensures { result ≡ board_from lines }
    {
        let blacks = count_on(&lines, Player::Black);
        let whites = count_on(&lines, Player::White);
        Board {
            lines,
            blacks,
            whites,
        }
    }

    // The board with lines that differ from its own at one point: the counts move by what stood there and what stands there now, and
    // nothing is counted again.
    pub(crate) fn with_lines(self, lines: [u16; 144], before: u8, after: u8) -> Board
        ensures { result ≡ changed_board self lines before after }
    {
        let blacks = moved_count(self.blacks, before == 1, after == 1);
        let whites = moved_count(self.whites, before == 2, after == 2);
        Board {
            lines,
            blacks,
            whites,
        }
    }

    // The board of 225 cell bytes.
    #[tactic(auto, unfolding(rules::specs::Answers::answer, crate::specs::Answers::board_answer))]
    pub fn from_cells(bytes: &[u8]) -> Result<Board, Refusal>
        ensures { result ≡ board_answer (cells_refusal bytes.now) bytes.now }
    {
        cells_refusal(bytes)?;
        Ok(Board::from_lines(lines_of(bytes)))
    }

    // The board of cells that were read, or the refusal of the reading.
    #[tactic(auto, unfolding(rules::specs::Answers::answer, crate::specs::Answers::read_answer))]
    pub fn read(answer: Result<[u8; 225], Refusal>) -> Result<Board, Refusal>
        ensures { result ≡ read_answer answer }
    {
        let bytes = answer?;
        Board::from_cells(&bytes)
    }

    // The board after moves that alternate from Black's; a point met again is overwritten.
    pub fn from_moves(moves: &[u8]) -> Result<Board, Refusal>
        ensures { result ≡ board_answer (codes_refusal moves.now) (moves_cells moves.now) }
    {
        Board::read(moves_cells(moves))
    }

    // The board with Black's stones put, then White's.
    pub fn from_stones(blacks: &[u8], whites: &[u8]) -> Result<Board, Refusal>
        ensures { result ≡ board_answer (first (codes_refusal blacks.now) (codes_refusal whites.now))
            (stones_cells blacks.now whites.now) }
    {
        Board::read(stones_cells(blacks, whites))
    }

    // The board with a stone of the colour at a point, in place of what stood there.
    #[tactic(auto, unfolding(rules::specs::Answers::answer, crate::specs::Answers::board_answer))]
    pub fn put(self, code: u8, colour: u8) -> Result<Board, Refusal>
        ensures { result ≡ put_answer self code colour }
    {
        self.refusal_for(code, colour)?;
        let player = Player::or_white(colour);
        let mut lines = self.lines;
        let before = cell_on(&lines, code);
        put_on(&mut lines, code, player);
        Ok(self.with_lines(lines, before, player.number()))
    }

    // The board with a point made empty.
    #[tactic(auto, unfolding(rules::specs::Answers::answer, crate::specs::Answers::board_answer))]
    pub fn remove(self, code: u8) -> Result<Board, Refusal>
        ensures { result ≡ remove_answer self code }
    {
        self.refusal_at(code)?;
        let mut lines = self.lines;
        let before = cell_on(&lines, code);
        remove_on(&mut lines, code);
        Ok(self.with_lines(lines, before, 0))
    }

    // The same by the names that board.rs gives to what leaves the first board as it is: by value it always is.
    pub fn with_stone(self, code: u8, colour: u8) -> Result<Board, Refusal>
        ensures { result ≡ put_answer self code colour }
    {
        self.put(code, colour)
    }

    pub fn without_stone(self, code: u8) -> Result<Board, Refusal>
        ensures { result ≡ remove_answer self code }
    {
        self.remove(code)
    }

    // Whose stone stands at a point.
    #[tactic(auto, unfolding(rules::specs::Answers::answer))]
    pub fn stone(self, code: u8) -> Result<Option<Player>, Refusal>
        ensures { result ≡ answer (refusal_at self code)
            (stone_there (eqb (get_or (cells self) code 0) 1) (eqb (get_or (cells self) code 0) 2)) }
    {
        self.refusal_at(code)?;
        Ok(Player::try_from(cell_on(&self.lines, code)).ok())
    }

    // The 225 cell bytes, written to the front of `out`.
    #[tactic(auto, unfolding(rules::specs::Answers::answer, rules::specs::Refusals::first, lent::specs::Lists::list_refusal, lent::specs::Lists::list_out))]
    pub fn to_cells(self, out: &mut [u8]) -> Result<u16, Refusal>
        ensures { (result ≡ answer (list_refusal (board_refusal self) out.old (cells self)) 225)
            × (out.new ≡ list_out (board_refusal self) out.old (cells self)) }
    {
        self.refusal()?;
        let bytes = cells_on(&self.lines);
        hand_out(&bytes, 225, out)
    }

    // The board in a view.
    #[tactic(auto, unfolding(rules::specs::Answers::answer, crate::specs::Answers::board_answer, rules::specs::Refusals::first))]
    pub fn turned(self, view: u8) -> Result<Board, Refusal>
        ensures { result ≡ board_answer (first (board_refusal self) (view_refusal view)) (turn_cells view (cells self)) }
    {
        self.refusal()?;
        view_refusal(view)?;
        let bytes = cells_on(&self.lines);
        let turned_to = turned_cells(&bytes, view);
        Ok(Board::from_lines(lines_of(&turned_to)))
    }

    // Where the colour's rows of a kind through a point start, a mask for each direction.
    #[tactic(auto, unfolding(rules::specs::Answers::answer))]
    pub fn row_starts_on(self, code: u8, colour: u8, kind: u8) -> Result<[u16; 4], Refusal>
        ensures { result ≡ answer (rows_on_refusal self code colour kind)
            (start_masks (rows_through (player_of colour) (kind_of kind) (cells self) code)) }
    {
        self.rows_on_refusal(code, colour, kind)?;
        Ok(grid::row_starts_on(
            &self.lines,
            code,
            Player::or_white(colour),
            RowKind::or_overlined(kind),
        ))
    }

    // Unsound for a board that is not sound.
    pub fn refusal(self) -> Result<(), Refusal>
        ensures { result ≡ checked (board_refusal self) }
    {
        refusal_on(&self.lines, self.blacks, self.whites)
    }

    // .. then NoPoint for a code over 224.
    #[tactic(auto, unfolding(rules::specs::Answers::answer, rules::specs::Refusals::first, crate::specs::Boards::refusal_at))]
    pub fn refusal_at(self, code: u8) -> Result<(), Refusal>
        ensures { result ≡ checked (refusal_at self code) }
    {
        self.refusal()?;
        code_refusal(code)
    }

    // .. then NoNumber for a number that is no colour's.
    #[tactic(auto, unfolding(rules::specs::Answers::answer, rules::specs::Refusals::first, crate::specs::Boards::refusal_for))]
    pub fn refusal_for(self, code: u8, colour: u8) -> Result<(), Refusal>
        ensures { result ≡ checked (refusal_for self code colour) }
    {
        self.refusal_at(code)?;
        colour_refusal(colour)
    }

    // .. then NoNumber for a row kind over 7.
    #[tactic(auto, unfolding(rules::specs::Answers::answer, rules::specs::Refusals::first, crate::specs::Boards::rows_on_refusal))]
    pub fn rows_on_refusal(self, code: u8, colour: u8, kind: u8) -> Result<(), Refusal>
        ensures { result ≡ checked (rows_on_refusal self code colour kind) }
    {
        self.refusal_for(code, colour)?;
        kind_refusal(kind)
    }
}
