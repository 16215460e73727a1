// What is reported of a game: the first faulty move and why it is one, or who has won; and the board.
ghost use Rattle.std.specs.Prelude.{◌≡◌, Some};
ghost use Rattle.board.specs.Boards.{board_from};
ghost use Rattle.game.specs.Game.{reason_no};
ghost use Rattle.game.specs.Answers.{report_with};

use board::Board;
use rules::Player;

// Why a move is faulty: its point is occupied, or forbidden to Black, or the move comes after a five. As a number: 1 to 3, in this order.
#[derive(Clone, Copy, Debug, PartialEq, Eq)]
pub enum Reason {
    Occupied = 1,
    Forbidden = 2,
    AfterFive = 3,
}

// The first faulty move: its number, from 1, and why it is faulty.
#[derive(Clone, Copy, Debug, PartialEq, Eq)]
pub struct Fault {
    pub number: u8,
    pub reason: Reason,
}

// The first faulty move, where there is one; else who has won, if anybody; and the board, the final one or the one before the fault.
#[derive(Clone, Copy)]
pub struct GameReport {
    pub fault: Option<Fault>,
    pub winner: Option<Player>,
    pub board: Board,
}

impl Reason {
    pub fn number(self) -> u8
        ensures { result ≡ reason_no (Some self) }
    {
        self as u8
    }
}

impl GameReport {
    // The report with the board that has these lines.
    pub(crate) fn with(
        fault: Option<Fault>,
        winner: Option<Player>,
        lines: [u16; 144],
    ) -> GameReport
        ensures { result ≡ report_with fault winner (board_from lines) }
    {
        GameReport {
            fault,
            winner,
            board: Board::from_lines(lines),
        }
    }
}
