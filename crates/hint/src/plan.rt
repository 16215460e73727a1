// The planner's search, in place: the attack and its reply are put on the lent lines, one attack fewer is left, and both are taken off. The
// line is written to `out` once it is found, its last points first.
ghost use Rattle.std.specs.Prelude.{◌≡◌, ◌+◌, ◌-◌, ◌*◌, ◌≤◌, ◌<◌, length};
ghost use Rattle.std.proofs.lemmas.List.Edits.{sets};
ghost use Rattle.grid.specs.Lines.{cells_of, Sound};
ghost use Rattle.hint.specs.Planner.{line_from, plan_from};
ghost use Rattle.hint.specs.Seen.{Quiet, Forced, Covers};

use super::attack::{Attack, attack_at};
use super::tries::{next_try, tries_after};
use grid::mark_by;
use point::Table;
use rules::{Code, Player};

// The first line of at most `left` attacks, written to `out` from place `at` on; how many points it has. No point is tried but those of
// `tries`.
#[cycle(search)]
pub(crate) fn plan_on(
    lines: &mut [u16; 144],
    table: &Table,
    side: Player,
    left: u8,
    tries: &[u16; 15],
    out: &mut [u8; 11],
    at: usize,
) -> usize
    requires { Sound lines.old × Quiet side (cells_of lines.old) × (at + 2 * left ≤ 12)
        × Covers side (cells_of lines.old) tries.now }
    ensures { (result ≡ length (plan_from side left (cells_of lines.old)))
        × (out.new ≡ sets out.old at (plan_from side left (cells_of lines.old)))
        × (lines.new ≡ lines.old) }
{
    if left == 0 {
        return 0;
    }
    let mut p = next_try(tries, lines, 0);
    // stays: a walk from try to try, at uneven steps
    while p < 225 {
        let code = Code::new(p).unwrap();
        let n = attack_on(lines, table, side, left, tries, out, at, code);
        if n != 0 {
            return n;
        }
        p = next_try(tries, lines, p + 1);
    }
    0
}

// The first line that begins with an attack at a point.
#[cycle(search)]
fn attack_on(
    lines: &mut [u16; 144],
    table: &Table,
    side: Player,
    left: u8,
    tries: &[u16; 15],
    out: &mut [u8; 11],
    at: usize,
    code: Code,
) -> usize
    requires { Sound lines.old × Quiet side (cells_of lines.old) × (at + 2 * left ≤ 12) × (0 < left)
        × Covers side (cells_of lines.old) tries.now }
    ensures { (result ≡ length (line_from side (plan_from side (left - 1)) (cells_of lines.old) code))
        × (out.new ≡ sets out.old at (line_from side (plan_from side (left - 1)) (cells_of lines.old) code))
        × (lines.new ≡ lines.old) }
{
    match attack_at(lines, table, code, side) {
        Attack::No => 0,
        Attack::Ends => {
            out[at] = code.get();
            1
        }
        Attack::Forces(eye) => forced_on(lines, table, side, left, tries, out, at, code, eye),
    }
}

// .. and goes on after the reply that it forces.
#[cycle(search)]
fn forced_on(
    lines: &mut [u16; 144],
    table: &Table,
    side: Player,
    left: u8,
    tries: &[u16; 15],
    out: &mut [u8; 11],
    at: usize,
    code: Code,
    eye: u8,
) -> usize
    requires { Sound lines.old × Forced side (cells_of lines.old) code eye × (at + 2 * left ≤ 12)
        × (0 < left) × Covers side (cells_of lines.old) tries.now }
    ensures { (result ≡ length (line_from side (plan_from side (left - 1)) (cells_of lines.old) code))
        × (out.new ≡ sets out.old at (line_from side (plan_from side (left - 1)) (cells_of lines.old) code))
        × (lines.new ≡ lines.old) }
{
    if left == 1 {
        return 0;
    }
    let numbers = table.numbers();
    let p = code.get();
    mark_by(lines, numbers, p, side, true);
    mark_by(lines, numbers, eye, side.opponent(), true);
    let next = tries_after(*tries, lines, table, code, side);
    let n = plan_on(lines, table, side, left - 1, &next, out, at + 2);
    mark_by(lines, numbers, eye, side.opponent(), false);
    mark_by(lines, numbers, p, side, false);
    if n == 0 {
        return 0;
    }
    out[at] = p;
    out[at + 1] = eye;
    n + 2
}
