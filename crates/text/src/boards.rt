// The board that a text says.
ghost use Rattle.std.specs.Prelude.{◌≡◌};
ghost use Rattle.rules.specs.Answers.{answer};
ghost use Rattle.board.specs.Answers.{board_answer};
ghost use Rattle.text.specs.Reading.{read_refusal, read_cells, diagram_text_refusal, diagram_text_cells};

use super::diagram::read_diagram_cells;
use super::forms::read_cells;
use board::Board;
use rules::Refusal;

// The live entry: with a slash stones, else moves; a lone point is one move, Black's.
pub fn read_board(text: &[u8]) -> Result<Board, Refusal>
    ensures { result ≡ board_answer (read_refusal text.now) (read_cells text.now) }
{
    Board::read(read_cells(text))
}

// The converter's reader: of a diagram, whatever bytes the text has.
pub fn read_diagram(text: &[u8]) -> Result<Board, Refusal>
    ensures { result ≡ board_answer (diagram_text_refusal text.now) (diagram_text_cells text.now) }
{
    Board::read(read_diagram_cells(text))
}
