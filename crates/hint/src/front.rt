// What a user calls, on cell bytes, which are not changed: the check of a line, and the plan of one.
ghost use Rattle.std.specs.Prelude.{◌≡◌, ◌≤◌};
ghost use Rattle.rules.specs.Numbers.{player_of};
ghost use Rattle.rules.specs.Answers.{answer, checked};
ghost use Rattle.lent.specs.Lists.{counted, list_out};
ghost use Rattle.cells.specs.Cells.{Cells};
ghost use Rattle.hint.specs.Hint.{acceptable};
ghost use Rattle.hint.specs.Planner.{plan_of};
ghost use Rattle.hint.specs.Refused.{limit_refusal, check_refusal, plan_refusal};

use super::check::check_on;
use super::fives::is_open;
use super::plan::plan_on;
use super::tries::tries_of;
use cells::{cells_refusal, codes_refusal};
use grid::lines_of;
use lent::{Kept, hand_out};
use point::Table;
use rules::{Player, Refusal, colour_refusal, unless};

// Whether a list of points is a sure win by fours for the colour, to move.
#[tactic(auto, unfolding(rules::specs::Answers::answer))]
pub fn win_check_of(cells: &[u8], colour: u8, list: &[u8]) -> Result<bool, Refusal>
    ensures { result ≡ answer (check_refusal cells.now colour list.now)
        (acceptable (player_of colour) cells.now list.now) }
{
    check_refusal(cells, colour, list)?;
    Ok(checked(cells, Player::or_white(colour), list))
}

// The first such list of at most `limit` attacks by comparing codes from the front, and how many points it has; none where there is no line.
#[tactic(auto, unfolding(rules::specs::Answers::answer, rules::specs::Refusals::first, lent::specs::Lists::list_refusal, lent::specs::Lists::list_out, lent::specs::Lists::counted))]
pub fn win_plan_of(cells: &[u8], colour: u8, limit: u8, out: &mut [u8]) -> Result<u16, Refusal>
    ensures { (result ≡ counted 1 (plan_refusal cells.now colour limit out.old) out.old
        (plan_of (player_of colour) limit cells.now))
        × (out.new ≡ list_out (plan_refusal cells.now colour limit out.old) out.old
        (plan_of (player_of colour) limit cells.now)) }
{
    plan_refusal(cells, colour, limit, out)?;
    let line = planned(cells, Player::or_white(colour), limit);
    hand_out(line.as_slice(), line.len() as u16, out)
}

// The check, of the cells of a board.
fn checked(cells: &[u8], side: Player, list: &[u8]) -> bool
    requires { Cells cells.now }
    ensures { result ≡ acceptable side cells.now list.now }
{
    let mut lines = lines_of(cells);
    is_open(&lines, side) && check_on(&mut lines, &Table::new(), side, list)
}

// The plan, of the cells of a board: at most 11 points.
fn planned(cells: &[u8], side: Player, limit: u8) -> Kept<11>
    requires { Cells cells.now × (limit ≤ 6) }
    ensures { result ≡ plan_of side limit cells.now }
{
    let mut line = Kept::new();
    let mut lines = lines_of(cells);
    if !is_open(&lines, side) {
        return line;
    }
    let tries = tries_of(&lines, side);
    let mut points = [0u8; 11];
    let count = plan_on(
        &mut lines,
        &Table::new(),
        side,
        limit,
        &tries,
        &mut points,
        0,
    );
    line.keep(&points[..count]);
    line
}

// "9, 8, 12 for the side"
#[tactic(auto, unfolding(rules::specs::Answers::answer, rules::specs::Refusals::first, crate::specs::Refused::check_refusal))]
fn check_refusal(cells: &[u8], colour: u8, list: &[u8]) -> Result<(), Refusal>
    ensures { result ≡ checked (check_refusal cells.now colour list.now) }
{
    cells_refusal(cells)?;
    codes_refusal(list)?;
    colour_refusal(colour)
}

// "9, .. 12 for the side, then 21 for a limit outside 1 to 6, then 13 for an output under 11 bytes"
#[tactic(auto, unfolding(rules::specs::Answers::answer, rules::specs::Refusals::first, rules::specs::Refusals::unless, crate::specs::Refused::plan_refusal))]
fn plan_refusal(cells: &[u8], colour: u8, limit: u8, out: &[u8]) -> Result<(), Refusal>
    ensures { result ≡ checked (plan_refusal cells.now colour limit out.now) }
{
    cells_refusal(cells)?;
    colour_refusal(colour)?;
    limit_refusal(limit)?;
    unless(11 <= out.len(), Refusal::NoRoom)
}

#[tactic(auto, unfolding(rules::specs::Answers::answer, rules::specs::Refusals::unless, crate::specs::Refused::limit_refusal))]
fn limit_refusal(limit: u8) -> Result<(), Refusal>
    ensures { result ≡ checked (limit_refusal limit) }
{
    unless(matches!(limit, 1..=6), Refusal::NoLimit)
}
