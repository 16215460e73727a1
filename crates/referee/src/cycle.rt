// The strict question asks the plain one, which asks the strict one. The lines are lent to all of them: a trial stone is put, the question
// asked on the same lines, and the stone taken off again. The board is not copied. Each turn has one empty point fewer. The table of
// addresses is lent too: it is laid out once, by whoever asks first.
ghost use Rattle.std.specs.Prelude.{◌≡◌, ◌/◌, ◌%◌, T};
ghost use Rattle.rules.specs.Grid.{start_masks, starts_of, rows_through};
ghost use Rattle.rules.specs.Forbidden.{more_than_one, with_black, strict_of, is_real, real_double};
ghost use Rattle.rules.specs.declared.Player.TheVariants.{Black};
ghost use Rattle.rules.specs.declared.RowKind.TheVariants.{Three};
ghost use Rattle.grid.specs.Lines.{cells_of, Sound};
ghost use Rattle.referee.specs.Referee.{Triable, KnownOf, strict_by, plain_by};

use super::eye::{Three, eye_on};
use super::known::{Known, is_told, looked_at, next_unless, settled};
use super::rows::rows_on;
use grid::{add_by, cell_on, lift_by};
use near::{Rows, more_than_one, other_starts, some_row};
use point::Table;
use rules::{Code, Player, Verdict};

// "The strict verdict is none at an occupied point or where a black Four goes through p (p completes a five); otherwise it is the plain
// one."
pub(crate) fn strict(lines: &mut [u16; 144], table: &Table, code: Code) -> Verdict
    requires { Sound lines.old }
    ensures { (result ≡ strict_of (cells_of lines.old) code) × (lines.new ≡ lines.old) }
{
    if cell_on(lines, code.get()) != 0 {
        return Verdict::None;
    }
    let rows = rows_on(lines, table, code);
    strict_by(lines, table, code, rows)
}

// .. by the rows that go through the empty point. Here and in `plain` the lines are asked only where more than one Two goes through it.
#[cycle(questions)]
#[tactic(auto, unfolding(crate::specs::Referee::strict_by))]
pub(crate) fn strict_by(lines: &mut [u16; 144], table: &Table, code: Code, rows: Rows) -> Verdict
    requires { T (more_than_one (starts_of rows.twos)) → Triable lines.old code rows.twos }
    ensures { (result ≡ strict_by lines.old code rows) × (lines.new ≡ lines.old) }
{
    if some_row(rows.fours) {
        return Verdict::None;
    }
    plain(lines, table, code, rows)
}

// "The plain verdict at an empty p, first that applies". "Nothing is asked after the first kind that applies."
#[cycle(questions)]
#[tactic(auto, unfolding(crate::specs::Referee::plain_by))]
pub(crate) fn plain(lines: &mut [u16; 144], table: &Table, code: Code, rows: Rows) -> Verdict
    requires { T (more_than_one (starts_of rows.twos)) → Triable lines.old code rows.twos }
    ensures { (result ≡ plain_by lines.old code rows) × (lines.new ≡ lines.old) }
{
    if some_row(rows.overlinings) {
        return Verdict::Overline;
    }
    if more_than_one(rows.swords) {
        return Verdict::DoubleFour;
    }
    if more_than_one(rows.twos) && trial(lines, table, code, rows.twos) {
        return Verdict::DoubleThree;
    }
    Verdict::None
}

// "on the board with Black at p more than one real Three through p": the stone is put, the question asked, the stone taken off. The Twos
// through the point are then the Threes.
#[cycle(questions)]
fn trial(lines: &mut [u16; 144], table: &Table, code: Code, twos: [u16; 4]) -> bool
    requires { Triable lines.old code twos }
    ensures { (result ≡ real_double strict_of (with_black (cells_of lines.old) code) code)
        × (lines.new ≡ lines.old) }
{
    let numbers = table.numbers();
    let p = code.get();
    add_by(lines, numbers, p, Player::Black);
    let real = two_real(lines, table, code, twos);
    lift_by(lines, numbers, p, Player::Black);
    real
}

// Whether more than one of the Threes through the stone at a point is real. The eyes are looked at first, all of them; what is left open is
// asked about.
#[cycle(questions)]
pub(crate) fn two_real(lines: &mut [u16; 144], table: &Table, code: Code, threes: [u16; 4]) -> bool
    requires { Sound lines.old × (threes ≡ start_masks (rows_through Black Three (cells_of lines.old) code)) }
    ensures { (result ≡ real_double strict_of (cells_of lines.old) code) × (lines.new ≡ lines.old) }
{
    let seen = looked_at(lines, table, code, threes);
    open_asked(lines, table, code, seen)
}

// .. by what the looks told: the Threes that they left open are asked about in order, until it is known.
#[cycle(questions)]
fn open_asked(lines: &mut [u16; 144], table: &Table, code: Code, seen: Known) -> bool
    requires { Sound lines.old × KnownOf (cells_of lines.old) code seen.sure seen.left }
    ensures { (result ≡ real_double strict_of (cells_of lines.old) code) × (lines.new ≡ lines.old) }
{
    let rest = other_starts(seen.left, seen.sure);
    let mut known = seen;
    // stays: the next Three is looked for by its bit, and none is left once it is told
    let mut three = next_unless(is_told(known), rest, 0);
    while three < 64 {
        let real = is_real(lines, table, code, Three::new(three).unwrap());
        known = settled(known, three, real);
        three = next_unless(is_told(known), rest, three + 1);
    }
    more_than_one(known.sure)
}

// "a Three is real when its eye completes no black five on that board and the strict verdict there is none, at every level of nesting"
// (document 02, No. 6). The rows through the eye tell the five and, handed on, the verdict. An eye is empty. (`open_asked` asks only of
// eyes that complete none; the contract is of every Three.)
#[cycle(questions)]
fn is_real(lines: &mut [u16; 144], table: &Table, code: Code, three: Three) -> bool
    requires { Sound lines.old × T (rows_through Black Three (cells_of lines.old) code (three / 16) (three % 16)) }
    ensures { (result ≡ is_real strict_of (cells_of lines.old) code (three / 16) (three % 16))
        × (lines.new ≡ lines.old) }
{
    let eye = Code::new(eye_on(lines, table, code, three)).unwrap();
    let rows = rows_on(lines, table, eye);
    !some_row(rows.fours) && strict_by(lines, table, eye, rows).is_none()
}
