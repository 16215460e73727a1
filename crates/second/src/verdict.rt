// Section 5: the referee. "The strict question asks the plain one, which asks the strict one; each turn has one empty point fewer." All of
// them work on one board: the trial stone is one cell written, and written back. The quoted sentences are document 01's where no other is
// named.
ghost use Rattle.std.specs.Prelude.{◌≡◌, ◌<◌, get_or};
ghost use Rattle.rules.specs.Grid.{rows_through};
ghost use Rattle.rules.specs.Forbidden.{strict_of, plain_of, is_double_three, real_threes};
ghost use Rattle.rules.specs.declared.Player.TheVariants.{Black};
ghost use Rattle.rules.specs.declared.RowKind.TheVariants.{Four};
ghost use Rattle.cells.specs.Cells.{Cells};
ghost use Rattle.second.specs.Count.{rows_along, row_count};

use super::count::count_rows;
use super::eye::eye_of;
use super::line::way;
use super::row::is_through;
use super::window::Start;
use rules::{Code, Direction, Player, RowKind, Verdict, Way};

// "The strict verdict is none at an occupied point or where a black Four goes through p (p completes a five); otherwise it is the plain
// one."
pub(crate) fn strict(board: &mut [u8; 225], code: Code) -> Verdict
    requires { Cells board.old }
    ensures { (result ≡ strict_of board.old code) × (board.new ≡ board.old) }
{
    if board[code.get() as usize] != 0 {
        return Verdict::None;
    }
    let fours = count_rows(board, code, RowKind::Four);
    strict_by(board, code, fours)
}

// .. at an empty point, by the count of the Fours through it.
#[cycle(questions)]
fn strict_by(board: &mut [u8; 225], code: Code, fours: u8) -> Verdict
    requires { Cells board.old × (get_or board.old code 0 ≡ 0) × (fours ≡ row_count (rows_through Black Four board.old code)) }
    ensures { (result ≡ strict_of board.old code) × (board.new ≡ board.old) }
{
    if fours >= 1 {
        return Verdict::None;
    }
    plain(board, code)
}

// "The plain verdict at an empty p, first that applies: 1. Overline: some line has an Overlining through p. 2. DoubleFour: more than one
// Sword through p. 3. DoubleThree". "Nothing is asked after the first kind that applies."
#[cycle(questions)]
pub(crate) fn plain(board: &mut [u8; 225], code: Code) -> Verdict
    requires { Cells board.old × (get_or board.old code 0 ≡ 0) }
    ensures { (result ≡ plain_of board.old code) × (board.new ≡ board.old) }
{
    if count_rows(board, code, RowKind::Overlining) >= 1 {
        Verdict::Overline
    } else if count_rows(board, code, RowKind::Sword) >= 2 {
        Verdict::DoubleFour
    } else if is_double_three(board, code) {
        Verdict::DoubleThree
    } else {
        Verdict::None
    }
}

// "DoubleThree: more than one Two through p, and on the board with Black at p more than one real Three through p."
#[cycle(questions)]
fn is_double_three(board: &mut [u8; 225], code: Code) -> bool
    requires { Cells board.old × (get_or board.old code 0 ≡ 0) }
    ensures { (result ≡ is_double_three strict_of board.old code) × (board.new ≡ board.old) }
{
    if count_rows(board, code, RowKind::Two) < 2 {
        return false;
    }
    // a black stone on the point, and the point empty again
    board[code.get() as usize] = 1;
    let real = count_real(board, code);
    board[code.get() as usize] = 0;
    real >= 2
}

// Black's real Threes through the stone at a point, counted so that two or more is more than one.
#[cycle(questions)]
fn count_real(board: &mut [u8; 225], code: Code) -> u8
    requires { Cells board.old }
    ensures { (result ≡ row_count (real_threes strict_of board.old code)) × (board.new ≡ board.old) }
{
    let vertical = count_real_along(board, way(Direction::Vertical), code);
    let horizontal = count_real_along(board, way(Direction::Horizontal), code);
    let ascending = count_real_along(board, way(Direction::Ascending), code);
    let descending = count_real_along(board, way(Direction::Descending), code);
    vertical + horizontal + ascending + descending
}

// Those on one line, as in `count`.
// stays: the loop is that of `count`, but each step of this one may ask on, and a cycle of calls gets no proof through a closure
#[cycle(questions)]
fn count_real_along(board: &mut [u8; 225], d: Way, code: Code) -> u8
    requires { Cells board.old }
    ensures { (result ≡ rows_along (real_threes strict_of board.old code d)) × (result < 3)
        × (board.new ≡ board.old) }
{
    let mut first = None;
    for j in 0..16u8 {
        if is_real(board, d, code, Start::new(j).unwrap()) {
            match first {
                None => first = Some(j),
                Some(i) => {
                    if j - i >= 2 {
                        return 2;
                    }
                }
            }
        }
    }
    if first.is_some() { 1 } else { 0 }
}

// Whether a real Three through the point starts at cell j. "a Three is real when its eye completes no black five on that board and the
// strict verdict there is none, at every level of nesting" (document 02, No. 6). The Fours through the eye are counted once, for both.
#[cycle(questions)]
fn is_real(board: &mut [u8; 225], d: Way, code: Code, j: Start) -> bool
    requires { Cells board.old }
    ensures { (result ≡ real_threes strict_of board.old code d j) × (board.new ≡ board.old) }
{
    if !is_through(board, d, code, Player::Black, RowKind::Three, j) {
        return false;
    }
    let eye = eye_of(board, d, code, j);
    let fours = count_rows(board, eye, RowKind::Four);
    if fours >= 1 {
        return false;
    }
    strict_by(board, eye, fours).is_none()
}
