// The depth of a strict question, by those of the questions inside it. All of them ask on the same lent lines: a trial stone is put, the
// eyes of all Threes through it are asked about, and it is taken off again. Each turn has one empty point fewer.
ghost use Rattle.std.specs.Prelude.{◌≡◌, ◌/◌, ◌%◌, T, get_or};
ghost use Rattle.rules.specs.Grid.{start_masks, rows_through};
ghost use Rattle.rules.specs.Forbidden.{with_black, black_rows, eye_of};
ghost use Rattle.rules.specs.Depth.{eye_depth, deepest, depth_of};
ghost use Rattle.rules.specs.declared.Player.TheVariants.{Black};
ghost use Rattle.rules.specs.declared.RowKind.TheVariants.{Three};
ghost use Rattle.near.specs.Rows.{RowsAre};
ghost use Rattle.grid.specs.Lines.{cells_of, Sound};
ghost use Rattle.referee.specs.Referee.{Triable};

use super::look::asks_nested;
use grid::{cell_on, mark_by};
use near::{Rows, next_start, some_row};
use point::Table;
use referee::{Three, eye_on, rows_on};
use rules::{Code, Player, larger};

// "0 at an occupied point"
pub(crate) fn depth_on(lines: &mut [u16; 144], code: Code) -> u8
    requires { Sound lines.old }
    ensures { (result ≡ depth_of (cells_of lines.old) code) × (lines.new ≡ lines.old) }
{
    if cell_on(lines, code.get()) != 0 {
        return 0;
    }
    let table = Table::new();
    let rows = rows_on(lines, &table, code);
    depth_by(lines, &table, code, rows)
}

// "1 where nothing nested is asked; else one more than the deepest question": at an empty point, by the rows through it.
#[cycle(depths)]
fn depth_by(lines: &mut [u16; 144], table: &Table, code: Code, rows: Rows) -> u8
    requires { Sound lines.old × (get_or (cells_of lines.old) code 0 ≡ 0)
        × RowsAre (black_rows (cells_of lines.old) code) rows }
    ensures { (result ≡ depth_of (cells_of lines.old) code) × (lines.new ≡ lines.old) }
{
    if asks_nested(rows) {
        return 1 + trial_depth(lines, table, code, rows.twos);
    }
    1
}

// "on the board with the stone": it is put, the eyes are asked about, and it is taken off. The Twos through the point are then the Threes.
// (By `mark_by`: were `lift_by` called from here too, it would no longer be compiled into the referee's cycle.)
#[cycle(depths)]
fn trial_depth(lines: &mut [u16; 144], table: &Table, code: Code, twos: [u16; 4]) -> u8
    requires { Triable lines.old code twos }
    ensures { (result ≡ deepest depth_of (with_black (cells_of lines.old) code) code)
        × (lines.new ≡ lines.old) }
{
    let numbers = table.numbers();
    let p = code.get();
    mark_by(lines, numbers, p, Player::Black, true);
    let deep = deepest_eye(lines, table, code, twos);
    mark_by(lines, numbers, p, Player::Black, false);
    deep
}

// "the deepest question at the eye of any Three through the point ..., also those after the answer is known": all of them, by their numbers.
#[cycle(depths)]
fn deepest_eye(lines: &mut [u16; 144], table: &Table, code: Code, threes: [u16; 4]) -> u8
    requires { Sound lines.old × (threes ≡ start_masks (rows_through Black Three (cells_of lines.old) code)) }
    ensures { (result ≡ deepest depth_of (cells_of lines.old) code) × (lines.new ≡ lines.old) }
{
    let mut deep = 0u8;
    // stays: the next Three is looked for by its bit
    let mut three = next_start(threes, 0);
    while three < 64 {
        let here = eye_depth(lines, table, code, Three::new(three).unwrap());
        deep = larger(here, deep);
        three = next_start(threes, three + 1);
    }
    deep
}

// "an eye that completes a five counts 1". One look at the rows through the eye tells the five and, handed on, the depth. An eye is empty.
#[cycle(depths)]
fn eye_depth(lines: &mut [u16; 144], table: &Table, code: Code, three: Three) -> u8
    requires { Sound lines.old × T (rows_through Black Three (cells_of lines.old) code (three / 16) (three % 16)) }
    ensures { (result ≡ eye_depth depth_of (cells_of lines.old) (eye_of (cells_of lines.old) code (three / 16) (three % 16)))
        × (lines.new ≡ lines.old) }
{
    let eye = Code::new(eye_on(lines, table, code, three)).unwrap();
    let rows = rows_on(lines, table, eye);
    if some_row(rows.fours) {
        return 1;
    }
    depth_by(lines, table, eye, rows)
}
