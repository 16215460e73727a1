// The points that the planner tries: every empty point that has a Sword or a Four of the attacker's through it is among them. Bit y of mask
// x is the point (x, y). They are read off all lines once, at the start; after an attack only the lines through its stone can have new
// ones.
ghost use Rattle.std.specs.Prelude.{◌≡◌, true};
ghost use Rattle.rules.specs.Numbers.{opponent_of};
ghost use Rattle.rules.specs.Bit.{bit, mask_of};
ghost use Rattle.rules.specs.Point.{key_dir, key_no, key_size, key_point, line_no};
ghost use Rattle.grid.specs.Lines.{cells_of, Sound, shows};
ghost use Rattle.hint.specs.Seen.{Kept, MarkedIf, MarkedCells, MarkedLine, MarkedThrough, Covers, hot_cell, NextTry};

use grid::mask_on;
use masks::{bit_at, count_mask, empty_cells, eyes_of, set_bit};
use near::next_start;
use point::{Table, address_by, key_direction, key_no, key_size, point_at};
use rules::{Code, Key, Player, Way};

// On a whole board.
pub(crate) fn tries_of(lines: &[u16; 144], side: Player) -> [u16; 15]
    requires { Sound lines.now }
    ensures { Covers side (cells_of lines.now) result }
{
    let mut tries = [0u16; 15];
    for key in 0..72u8 {
        mark_line(&mut tries, lines, Key::new(key).unwrap(), side);
    }
    tries
}

// After an attack and its reply, whose stones are on the lines: those before it and those of the lines through it.
pub(crate) fn tries_after(
    tries: [u16; 15],
    lines: &[u16; 144],
    table: &Table,
    code: Code,
    side: Player,
) -> [u16; 15]
    requires { Sound lines.now }
    ensures { Kept tries result × MarkedThrough side (cells_of lines.now) code result }
{
    let mut next = tries;
    for d in 0..4u8 {
        mark_along(&mut next, lines, table, Way::new(d).unwrap(), code, side);
    }
    next
}

// The first of them from a code on that is empty; 225 where there is none. A column is a vertical line.
pub(crate) fn next_try(tries: &[u16; 15], lines: &[u16; 144], from: u8) -> u8
    ensures { NextTry tries.now (cells_of lines.now) from result }
{
    let mut p = from;
    // stays: a walk from column to column, at uneven steps
    while p < 225 {
        let y = p % 15;
        let x = (p / 15) as usize;
        let column = tries[x] & empty_cells(lines[x], lines[72 + x], 15);
        let next = next_start([column, 0, 0, 0], y);
        if next < 15 {
            return p - y + next;
        }
        p = p - y + 15;
    }
    225
}

// The line through a point in one direction, if that is stored.
fn mark_along(
    tries: &mut [u16; 15],
    lines: &[u16; 144],
    table: &Table,
    d: Way,
    code: Code,
    side: Player,
)
    requires { Sound lines.now }
    ensures { Kept tries.old tries.new
        × MarkedLine side (cells_of lines.now) d (line_no d code) tries.new }
{
    let a = address_by(table.numbers(), d.get(), code.get());
    if a.stored {
        mark_line(tries, lines, Key::new(a.key).unwrap(), side);
    }
}

// The line of a key.
fn mark_line(tries: &mut [u16; 15], lines: &[u16; 144], key: Key, side: Player)
    requires { Sound lines.now }
    ensures { Kept tries.old tries.new
        × MarkedLine side (cells_of lines.now) (key_dir key) (key_no key) tries.new }
{
    let key = key.get();
    let cells = hot_cells(lines, key, side);
    if cells != 0 {
        mark_cells(tries, key, cells);
    }
}

// The empty cells of the player's windows on a line that are free and hold three stones or four.
fn hot_cells(lines: &[u16; 144], key: u8, player: Player) -> u16
    ensures { result ≡ mask_of 16 (hot_cell (key_size key) (shows player lines.now key)
        (shows (opponent_of player) lines.now key)) }
{
    let own = mask_on(lines, key, player);
    let other = mask_on(lines, key, player.opponent());
    let size = key_size(key);
    let starts = count_mask(own, other, size, 3) | count_mask(own, other, size, 4);
    eyes_of(own, other, size, starts, 31)
}

// The cells of a line, each by its point.
fn mark_cells(tries: &mut [u16; 15], key: u8, cells: u16)
    ensures { Kept tries.old tries.new × MarkedCells key 15 (bit cells) tries.new }
{
    for j in 0..15u8 {
        mark_cell(tries, key, j, bit_at(cells, j));
    }
}

// One cell, or none.
fn mark_cell(tries: &mut [u16; 15], key: u8, j: u8, on: bool)
    ensures { Kept tries.old tries.new × MarkedIf on (key_point key j) tries.new }
{
    if on {
        mark_point(tries, point_at(key_direction(key), key_no(key), j));
    }
}

// One point. A number over 224 is none.
fn mark_point(tries: &mut [u16; 15], code: u16)
    ensures { Kept tries.old tries.new × MarkedIf true code tries.new }
{
    let x = (code / 15) as usize;
    if x < 15 {
        tries[x] = set_bit(tries[x], (code % 15) as u8, true);
    }
}
