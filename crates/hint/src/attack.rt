// One attack: what it does to a line. Before it the defender has no point that completes a five.
ghost use Rattle.std.specs.Prelude.{◌≡◌, get_or};
ghost use Rattle.grid.specs.Lines.{cells_of, Sound};
ghost use Rattle.hint.specs.Seen.{Quiet, AttackIs, AnswerIs};

use super::eyes::only_eye;
use super::look::{is_forbidden, rows_for};
use grid::{cell_on, mark_by};
use near::some_row;
use point::Table;
use rules::{Code, Player};

// No line begins with it; it ends the line; or the defender must reply at its only eye, and may, and completes nothing after it.
#[derive(Clone, Copy, Debug, PartialEq, Eq)]
pub(crate) enum Attack {
    No,
    Ends,
    Forces(u8),
}

// The attack at a point: only points where the attacker has a Sword or a Four through them can be attacks.
pub(crate) fn attack_at(lines: &mut [u16; 144], table: &Table, code: Code, side: Player) -> Attack
    requires { Sound lines.old × Quiet side (cells_of lines.old) }
    ensures { AttackIs side (cells_of lines.old) code result × (lines.new ≡ lines.old) }
{
    let p = code.get();
    if cell_on(lines, p) != 0 {
        return Attack::No;
    }
    let rows = rows_for(lines, table, code, side);
    if some_row(rows.fours) {
        return Attack::Ends;
    }
    if !some_row(rows.swords) || is_forbidden(lines, code, side, rows) {
        return Attack::No;
    }
    let Some(eye) = only_eye(lines, table, code, side, rows.swords) else {
        return Attack::Ends;
    };
    let numbers = table.numbers();
    mark_by(lines, numbers, p, side, true);
    let answer = answer_at(lines, table, Code::new(eye).unwrap(), side.opponent());
    mark_by(lines, numbers, p, side, false);
    answer
}

// The defender's reply at the only eye of an attack whose stone is on the lines: forbidden, so that the line ends; a four of the
// defender's, so that no line goes on; or forced.
fn answer_at(lines: &[u16; 144], table: &Table, eye: Code, defender: Player) -> Attack
    requires { Sound lines.now × (get_or (cells_of lines.now) eye 0 ≡ 0) }
    ensures { AnswerIs defender (cells_of lines.now) eye result }
{
    let rows = rows_for(lines, table, eye, defender);
    if is_forbidden(lines, eye, defender, rows) {
        return Attack::Ends;
    }
    if some_row(rows.swords) {
        return Attack::No;
    }
    Attack::Forces(eye.get())
}
