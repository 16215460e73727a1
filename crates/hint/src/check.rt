// The check of a list of points, on lines that it may change: each attack and its reply are put, and what is left of the list is looked at
// from there.
ghost use Rattle.std.specs.Prelude.{◌≡◌};
ghost use Rattle.grid.specs.Lines.{cells_of, Sound};
ghost use Rattle.hint.specs.Hint.{reaches_end};
ghost use Rattle.hint.specs.Seen.{Quiet};

use super::attack::{Attack, attack_at};
use grid::mark_by;
use point::Table;
use rules::{Code, Player};

// "A list must reach the end and nothing may follow it."; "with one eye the next point in the list must be that eye and the defender plays
// it".
pub(crate) fn check_on(lines: &mut [u16; 144], table: &Table, side: Player, list: &[u8]) -> bool
    requires { Sound lines.old × Quiet side (cells_of lines.old) }
    ensures { result ≡ reaches_end side (cells_of lines.old) list.now }
{
    let numbers = table.numbers();
    let mut left = list;
    while let [first, after @ ..] = left {
        let Some(code) = Code::new(*first) else {
            return false;
        };
        match attack_at(lines, table, code, side) {
            Attack::No => return false,
            Attack::Ends => return after.is_empty(),
            Attack::Forces(eye) => {
                let [reply, rest @ ..] = after else {
                    return false;
                };
                if *reply != eye {
                    return false;
                }
                mark_by(lines, numbers, *first, side, true);
                mark_by(lines, numbers, eye, side.opponent(), true);
                left = rest;
            }
        }
    }
    false
}
