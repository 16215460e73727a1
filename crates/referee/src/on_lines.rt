// What is asked of lent lines, whatever they are, with the counts of their board: each question tests lines, counts and point first.
ghost use Rattle.std.specs.Prelude.{◌≡◌, get_or};
ghost use Rattle.rules.specs.Grid.{is_empty};
ghost use Rattle.rules.specs.Answers.{answer, checked};
ghost use Rattle.rules.specs.Forbidden.{strict_of};
ghost use Rattle.grid.specs.Lines.{cells_of};
ghost use Rattle.board.specs.Boards.{board_with, refusal_at};

use super::cycle::strict;
use board::refusal_on;
use grid::cell_on;
use point::{Table, code_refusal};
use rules::{Code, Refusal, Verdict};

// The strict verdict, or a refusal; either way the lines are as they were.
#[tactic(auto, unfolding(rules::specs::Answers::answer))]
pub(crate) fn strict_on(
    lines: &mut [u16; 144],
    blacks: u8,
    whites: u8,
    code: u8,
) -> Result<Verdict, Refusal>
    ensures { (result ≡ answer (refusal_at (board_with lines.old blacks whites) code)
        (strict_of (cells_of lines.old) code))
        × (lines.new ≡ lines.old) }
{
    refusal_at(lines, blacks, whites, code)?;
    let table = Table::new();
    Ok(strict(lines, &table, Code::new(code).unwrap()))
}

// Whether a stone may be tried there, which it may at an empty point, or a refusal. Nothing is written; the lines are lent as a thin
// function lends them on.
#[tactic(auto, unfolding(rules::specs::Answers::answer))]
pub(crate) fn may_try(
    lines: &mut [u16; 144],
    blacks: u8,
    whites: u8,
    code: u8,
) -> Result<bool, Refusal>
    ensures { (result ≡ answer (refusal_at (board_with lines.old blacks whites) code)
        (is_empty (get_or (cells_of lines.old) code 0)))
        × (lines.new ≡ lines.old) }
{
    refusal_at(lines, blacks, whites, code)?;
    Ok(cell_on(lines, code) == 0)
}

// 9 where no board has these lines and counts, then 8 where there is no such point.
#[tactic(auto, unfolding(rules::specs::Answers::answer, rules::specs::Refusals::first, board::specs::Boards::refusal_at))]
fn refusal_at(lines: &[u16; 144], blacks: u8, whites: u8, code: u8) -> Result<(), Refusal>
    ensures { result ≡ checked (refusal_at (board_with lines.now blacks whites) code) }
{
    refusal_on(lines, blacks, whites)?;
    code_refusal(code)
}
