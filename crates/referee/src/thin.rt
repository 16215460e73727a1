// The referee on a lent board: thin functions, each of which lends the board's lines on for one call, and the trial made of them. The stone
// of a trial is counted while it is on.
ghost use Rattle.std.specs.Prelude.{◌≡◌, ◌<◌, get_or};
ghost use Rattle.rules.specs.Answers.{answer};
ghost use Rattle.rules.specs.Grid.{is_empty, remove};
ghost use Rattle.rules.specs.Forbidden.{with_black, strict_of, real_double, double_three_at};
ghost use Rattle.grid.specs.Lines.{Sound};
ghost use Rattle.board.specs.Boards.{cells, board_of, refusal_at};
ghost use Rattle.referee.specs.Referee.{HoldsAt};

use super::on_lines::{may_try, strict_on};
use super::rows::{put_black, real_on};
use board::Board;
use grid::remove_on;
use rules::{Code, Refusal, Verdict};

// Black's trial stone put on a lent board, at an empty point: Black has one stone more.
pub(crate) fn put_in(b: &mut Board, code: u8)
    requires { HoldsAt b.old code 0 }
    ensures { b.new ≡ board_of (with_black (cells b.old) code) }
{
    put_black(&mut b.lines, code);
    b.blacks += 1;
}

// Whether more than one real Three goes through the stone there.
pub(crate) fn ask_in(b: &mut Board, code: u8) -> bool
    requires { Sound b.old.lines × (code < 225) }
    ensures { (result ≡ real_double strict_of (cells b.old) code) × (b.new ≡ b.old) }
{
    real_on(&mut b.lines, Code::new(code).unwrap())
}

// The stone taken off again: Black has one less.
pub(crate) fn remove_in(b: &mut Board, code: u8)
    requires { HoldsAt b.old code 1 }
    ensures { b.new ≡ board_of (remove (cells b.old) code) }
{
    remove_on(&mut b.lines, code);
    b.blacks -= 1;
}

// The three together, at an empty point: what is asked is the board with the stone, and the board is as it was.
pub(crate) fn trial_in(b: &mut Board, code: u8) -> bool
    requires { HoldsAt b.old code 0 }
    ensures { (result ≡ real_double strict_of (with_black (cells b.old) code) code) × (b.new ≡ b.old) }
{
    put_in(b, code);
    let real = ask_in(b, code);
    remove_in(b, code);
    real
}

// Whether a stone may be tried at a point of a lent board, which it may where the point is empty, with the refusals.
pub(crate) fn may_try_in(b: &mut Board, code: u8) -> Result<bool, Refusal>
    ensures { (result ≡ answer (refusal_at b.old code) (is_empty (get_or (cells b.old) code 0)))
        × (b.new ≡ b.old) }
{
    may_try(&mut b.lines, b.blacks, b.whites, code)
}

// Whether the point is empty and a double three for Black, whatever other kind it is, with the refusals. The stone is tried on the lent
// board itself. That there is more than one Two is not tested first: the Threes through the stone are the Twos before it.
#[tactic(auto, unfolding(rules::specs::Answers::answer))]
pub fn is_double_three_in(b: &mut Board, code: u8) -> Result<bool, Refusal>
    ensures { (result ≡ answer (refusal_at b.old code) (double_three_at (cells b.old) code))
        × (b.new ≡ b.old) }
{
    if may_try_in(b, code)? {
        return Ok(trial_in(b, code));
    }
    Ok(false)
}

// The strict verdict at a point of a lent board, with its refusals.
pub fn forbidden_strict_in(b: &mut Board, code: u8) -> Result<Verdict, Refusal>
    ensures { (result ≡ answer (refusal_at b.old code) (strict_of (cells b.old) code))
        × (b.new ≡ b.old) }
{
    strict_on(&mut b.lines, b.blacks, b.whites, code)
}
