// A stone put on the stored lines, and taken off: four plain updates, one for each direction.
ghost use Rattle.std.specs.Prelude.{◌≡◌, true, false, ◌<◌};
ghost use Rattle.rules.specs.Numbers.{colour_no};
ghost use Rattle.point.specs.Places.{addresses, place_by};
ghost use Rattle.grid.specs.Lines.{entry_no, mask_on, write_line, write_in, write_on, mark_place, mark_by};

use masks::set_bit;
use point::{address_by, addresses};
use rules::Player;

// A stone at a point, in place of what stood there. Nothing changes at a code over 224.
pub fn put_on(lines: &mut [u16; 144], code: u8, player: Player)
    ensures { lines.new ≡ write_on lines.old code (colour_no player) }
{
    write_on(lines, code, player.number());
}

// A point made empty. Nothing changes at a code over 224.
pub fn remove_on(lines: &mut [u16; 144], code: u8)
    ensures { lines.new ≡ write_on lines.old code 0 }
{
    write_on(lines, code, 0);
}

// A cell's value, as in cell bytes, on the four lines through a point.
#[tactic(auto, unfolding(crate::specs::Lines::write_on))]
fn write_on(lines: &mut [u16; 144], code: u8, value: u8)
    ensures { lines.new ≡ write_on lines.old code value }
{
    let table = addresses();
    write_along(lines, &table, 0, code, value);
    write_along(lines, &table, 1, code, value);
    write_along(lines, &table, 2, code, value);
    write_along(lines, &table, 3, code, value);
}

// .. on the line through it in one direction, if that is stored.
fn write_along(lines: &mut [u16; 144], table: &[u16; 900], d: u8, code: u8, value: u8)
    requires { (d < 4) × (table.now ≡ addresses) }
    ensures { lines.new ≡ write_in lines.old d code value }
{
    let a = address_by(table, d, code);
    if a.stored {
        write_line(lines, a.key, a.cell, value);
    }
}

// .. at a cell of one line: its bit in the black mask and in the white one.
#[tactic(auto, unfolding(crate::specs::Lines::write_line))]
fn write_line(lines: &mut [u16; 144], key: u8, cell: u8, value: u8)
    requires { key < 72 }
    ensures { lines.new ≡ write_line lines.old key cell value }
{
    let k = key as usize;
    let blacks = set_bit(lines[k], cell, value == 1);
    let whites = set_bit(lines[72 + k], cell, value == 2);
    lines[k] = blacks;
    lines[72 + k] = whites;
}

// A stone at a point where none stands: its colour's bit on each stored line through it, which is half of what a put writes. The addresses
// are those of the lent table, which whoever adds many stones lays out once. Nothing changes at a code over 224, here and below.
#[tactic(auto, unfolding(crate::specs::Lines::mark_by))]
pub fn add_by(lines: &mut [u16; 144], table: &[u16; 900], code: u8, player: Player)
    ensures { lines.new ≡ mark_by lines.old table.now code player true }
{
    mark_along(lines, table, 0, code, player, true);
    mark_along(lines, table, 1, code, player, true);
    mark_along(lines, table, 2, code, player, true);
    mark_along(lines, table, 3, code, player, true);
}

// The player's stone taken off again.
#[tactic(auto, unfolding(crate::specs::Lines::mark_by))]
pub fn lift_by(lines: &mut [u16; 144], table: &[u16; 900], code: u8, player: Player)
    ensures { lines.new ≡ mark_by lines.old table.now code player false }
{
    mark_along(lines, table, 0, code, player, false);
    mark_along(lines, table, 1, code, player, false);
    mark_along(lines, table, 2, code, player, false);
    mark_along(lines, table, 3, code, player, false);
}

// The player's stone put on its four lines, or lifted from them: for crates that search on boards of their own.
// stays: `add_by` and `lift_by` beside it, each with its four calls, for speed. `lift_by` is for the referee's cycle, and is compiled into it
// as long as no other search calls it.
#[tactic(auto, unfolding(crate::specs::Lines::mark_by))]
pub fn mark_by(lines: &mut [u16; 144], table: &[u16; 900], code: u8, player: Player, on: bool)
    ensures { lines.new ≡ mark_by lines.old table.now code player on }
{
    mark_along(lines, table, 0, code, player, on);
    mark_along(lines, table, 1, code, player, on);
    mark_along(lines, table, 2, code, player, on);
    mark_along(lines, table, 3, code, player, on);
}

// .. on the line in one direction, if that is stored.
fn mark_along(lines: &mut [u16; 144], table: &[u16; 900], d: u8, code: u8, player: Player, on: bool)
    ensures { lines.new ≡ mark_place lines.old (place_by table.now d code) player on }
{
    let a = address_by(table, d, code);
    if a.stored {
        let k = entry_no(player, a.key);
        lines[k] = set_bit(lines[k], a.cell, on);
    }
}

// The player's stones on the line of a key; none for a key over 71.
#[tactic(auto, unfolding(crate::specs::Lines::mask_on))]
pub fn mask_on(lines: &[u16; 144], key: u8, player: Player) -> u16
    ensures { result ≡ mask_on player lines.now key }
{
    if key < 72 {
        lines[entry_no(player, key)]
    } else {
        0
    }
}

// Where the player's mask of the line of a key stands.
pub(crate) fn entry_no(player: Player, key: u8) -> usize
    ensures { result ≡ entry_no player key }
{
    match player {
        Player::Black => key as usize,
        Player::White => 72 + key as usize,
    }
}
