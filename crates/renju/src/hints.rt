// Hints: whether a line of points is a sure win by fours, and the plan of such a line.
ghost use Rattle.std.specs.Prelude.{◌≡◌};
ghost use Rattle.rules.specs.Numbers.{player_of};
ghost use Rattle.rules.specs.Bit.{digit};
ghost use Rattle.lent.specs.Lists.{list_out};
ghost use Rattle.hint.specs.Hint.{acceptable};
ghost use Rattle.hint.specs.Planner.{plan_of};
ghost use Rattle.hint.specs.Refused.{check_refusal, plan_refusal};
ghost use Rattle.renju.specs.Answers.{word, list_word};

use super::answer::word;
use hint::{win_check_of, win_plan_of};

// 1 where the line is acceptable for the colour, to move, else 0.
pub fn renju_win_check(cells: &[u8], colour: u8, line: &[u8]) -> u32
    ensures { result ≡ word (check_refusal cells.now colour line.now)
        (digit (acceptable (player_of colour) cells.now line.now)) }
{
    word(win_check_of(cells, colour, line))
}

// The first acceptable line of at most `limit` attacks by comparing codes from the front: how many points it has, 0 for no line.
pub fn renju_win_plan(cells: &[u8], colour: u8, limit: u8, out: &mut [u8]) -> u32
    ensures { (result ≡ list_word 1 (plan_refusal cells.now colour limit out.old) out.old
        (plan_of (player_of colour) limit cells.now))
        × (out.new ≡ list_out (plan_refusal cells.now colour limit out.old) out.old
        (plan_of (player_of colour) limit cells.now)) }
{
    word(win_plan_of(cells, colour, limit, out))
}
