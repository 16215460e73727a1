// One move on the lines of the board before it: why it is faulty, if it is, and whether it makes a five. Its cell tells whether the
// point is occupied, a glance at the rows through it the rest; only where some kind may apply is the referee asked.
ghost use Rattle.std.specs.Prelude.{◌≡◌, false, not, ◌&&◌, cond};
ghost use Rattle.rules.specs.Numbers.{is_black, is_none};
ghost use Rattle.rules.specs.Grid.{rows_through};
ghost use Rattle.rules.specs.Forbidden.{some_row, may_forbid, strict_of};
ghost use Rattle.rules.specs.Fives.{makes_five};
ghost use Rattle.rules.specs.declared.Player.TheVariants.{Black, White};
ghost use Rattle.rules.specs.declared.RowKind.TheVariants.{Four};
ghost use Rattle.grid.specs.Lines.{cells_of, Sound, add_on};
ghost use Rattle.game.specs.Game.{is_fault, lowest, reason_of};

use super::report::Reason;
use grid::{add_by, cell_on, cells_on, stones_by};
use near::{Glance, black_glance_near, white_four_near};
use point::Table;
use referee::forbidden_strict_of;
use rules::{Code, Player};

// What is said of a move: why it is faulty, if it is. Whether it makes a five is told where it has no fault.
#[derive(Clone, Copy)]
pub(crate) struct Said {
    pub(crate) reason: Option<Reason>,
    pub(crate) five: bool,
}

// "on an occupied point, forbidden to Black, or played after a five". A Four through the empty point is a Five once the stone is put.
pub(crate) fn said_on(
    lines: &[u16; 144],
    table: &Table,
    code: Code,
    player: Player,
    won: Option<Player>,
) -> Said
    requires { Sound lines.now }
    ensures { (result.reason ≡ reason_of player won (cells_of lines.now) code)
        × (is_fault result.reason ≡ false → result.five ≡ makes_five player (cells_of lines.now) code) }
{
    let occupied = cell_on(lines, code.get()) != 0;
    let seen = glance_by(lines, table, code, player);
    let forbidden = is_kind_where(seen.may, lines, code);
    Said {
        reason: lowest(occupied, forbidden, won.is_some()),
        five: seen.four,
    }
}

// "If several apply to one move, the lowest reason counts."
fn lowest(occupied: bool, forbidden: bool, after: bool) -> Option<Reason>
    ensures { result ≡ lowest occupied forbidden after }
{
    if occupied {
        Some(Reason::Occupied)
    } else if forbidden {
        Some(Reason::Forbidden)
    } else if after {
        Some(Reason::AfterFive)
    } else {
        None
    }
}

// What the player's rows through a point tell: whether one is a Four, and whether some kind may apply. To White nothing is forbidden.
fn glance_by(lines: &[u16; 144], table: &Table, code: Code, player: Player) -> Glance
    requires { Sound lines.now }
    ensures { (result.four ≡ some_row (rows_through player Four (cells_of lines.now) code))
        × (result.may ≡ (is_black player && may_forbid (cells_of lines.now) code)) }
{
    match player {
        Player::Black => black_glance_by(lines, table, code),
        Player::White => Glance {
            four: white_four_by(lines, table, code),
            may: false,
        },
    }
}

// .. Black's. What is done for one colour stands apart, here and below, so that it is compiled with the colour known.
fn black_glance_by(lines: &[u16; 144], table: &Table, code: Code) -> Glance
    requires { Sound lines.now }
    ensures { (result.four ≡ some_row (rows_through Black Four (cells_of lines.now) code))
        × (result.may ≡ may_forbid (cells_of lines.now) code) }
{
    let code = code.get();
    let stones = stones_by(lines, table.numbers(), code, Player::Black);
    black_glance_near(stones.own, stones.other, code)
}

// .. White's.
fn white_four_by(lines: &[u16; 144], table: &Table, code: Code) -> bool
    requires { Sound lines.now }
    ensures { result ≡ some_row (rows_through White Four (cells_of lines.now) code) }
{
    let code = code.get();
    let stones = stones_by(lines, table.numbers(), code, Player::White);
    white_four_near(stones.own, stones.other, code)
}

// Whether the strict verdict at a point is a kind, where it may be one: only there is the referee asked.
fn is_kind_where(may: bool, lines: &[u16; 144], code: Code) -> bool
    ensures { result ≡ (may && not (is_none (strict_of (cells_of lines.now) code))) }
{
    may && is_kind_on(lines, code)
}

// Whether the strict verdict at a point is a kind. The cells of any lines are cells, so the question is never refused.
fn is_kind_on(lines: &[u16; 144], code: Code) -> bool
    ensures { result ≡ not (is_none (strict_of (cells_of lines.now) code)) }
{
    let cells = cells_on(lines);
    match forbidden_strict_of(&cells, code.get()) {
        Ok(verdict) => !verdict.is_none(),
        Err(_) => false,
    }
}

// The stone of a move on the lines, unless the move is faulty.
pub(crate) fn put_unless(
    fault: bool,
    lines: &mut [u16; 144],
    table: &Table,
    code: Code,
    player: Player,
)
    ensures { lines.new ≡ cond fault lines.old (add_on lines.old code player) }
{
    if fault {
        return;
    }
    match player {
        Player::Black => add_black(lines, table, code),
        Player::White => add_white(lines, table, code),
    }
}

// .. a black one.
fn add_black(lines: &mut [u16; 144], table: &Table, code: Code)
    ensures { lines.new ≡ add_on lines.old code Black }
{
    add_by(lines, table.numbers(), code.get(), Player::Black);
}

// .. a white one.
fn add_white(lines: &mut [u16; 144], table: &Table, code: Code)
    ensures { lines.new ≡ add_on lines.old code White }
{
    add_by(lines, table.numbers(), code.get(), Player::White);
}
