// The front, on a board by value and on cell bytes: what is given is tested, in section 2's order, and the depth asked. Nothing that is
// handed in is changed.
ghost use Rattle.std.specs.Prelude.{◌≡◌, cond, eqb, Option, Some, None};
ghost use Rattle.rules.specs.Answers.{answer};
ghost use Rattle.rules.specs.Bit.{digit};
ghost use Rattle.rules.specs.Forbidden.{strict_of};
ghost use Rattle.rules.specs.Depth.{depth_of};
ghost use Rattle.grid.specs.Lines.{lines_of};
ghost use Rattle.cells.specs.Cells.{Cells, cells_refusal_at};
ghost use Rattle.board.specs.Boards.{cells, refusal_at};
ghost use Rattle.referee.specs.Answers.{is_tried};
ghost use Rattle.depth.specs.Answers.{depth_answer};

use super::cycle::depth_on;
use board::Board;
use referee::ruling_of;
use rules::{Code, Refusal, Verdict};

// A depth with the strict verdict.
#[derive(Clone, Copy, Debug, PartialEq, Eq)]
pub struct DepthAnswer {
    pub depth: u8,
    pub verdict: Verdict,
}

// How deep the strict question at a point goes: 0 at an occupied point, 1 where nothing nested is asked, at most as many as there are empty
// points.
#[tactic(auto, unfolding(rules::specs::Answers::answer))]
pub fn depth(board: Board, code: u8) -> Result<u8, Refusal>
    ensures { result ≡ answer (refusal_at board code) (depth_of (cells board) code) }
{
    board.refusal_at(code)?;
    let mut lines = board.lines;
    Ok(depth_on(&mut lines, Code::new(code).unwrap()))
}

// The same of a board given as cell bytes.
#[tactic(auto, unfolding(rules::specs::Answers::answer))]
pub fn depth_of(cells: &[u8], code: u8) -> Result<u8, Refusal>
    ensures { result ≡ answer (cells_refusal_at cells.now code) (depth_of cells.now code) }
{
    Ok(strict_depth_of(cells, code)?.depth)
}

// .. with the verdict of the referee, who has tested the cells and built the lines that a trial needs: neither is done again.
#[tactic(auto, unfolding(rules::specs::Answers::answer, referee::specs::Answers::ruling_of))]
pub fn strict_depth_of(cells: &[u8], code: u8) -> Result<DepthAnswer, Refusal>
    ensures { result ≡ depth_answer (cells_refusal_at cells.now code) (depth_of cells.now code)
        (strict_of cells.now code) }
{
    let ruling = ruling_of(cells, code)?;
    Ok(DepthAnswer {
        depth: ruled_depth(cells, Code::new(code).unwrap(), ruling.lines),
        verdict: ruling.verdict,
    })
}

// Where no stone may be tried not more than one Two goes through the point, so that nothing nested is asked.
fn ruled_depth(cells: &[u8], code: Code, lines: Option<[u16; 144]>) -> u8
    requires { Cells cells.now × (lines ≡ cond (is_tried cells.now code) (Some (lines_of cells.now)) None) }
    ensures { result ≡ depth_of cells.now code }
{
    match lines {
        Some(mut lines) => depth_on(&mut lines, code),
        None => shallow_depth(cells[code.get() as usize]),
    }
}

// "0 at an occupied point; 1 where nothing nested is asked", by what stands there.
fn shallow_depth(value: u8) -> u8
    ensures { result ≡ digit (eqb value 0) }
{
    (value == 0) as u8
}
