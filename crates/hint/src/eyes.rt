// The eyes of the Fours that an attack makes, told before its stone is put: the Swords through its point become these Fours.
ghost use Rattle.std.specs.Prelude.{◌≡◌, ◌/◌, ◌%◌, ◌<◌, T, get_or};
ghost use Rattle.rules.specs.Bit.{bit};
ghost use Rattle.rules.specs.Grid.{put, start_masks, rows_through};
ghost use Rattle.rules.specs.Forbidden.{some_row};
ghost use Rattle.rules.specs.declared.RowKind.TheVariants.{Sword};
ghost use Rattle.grid.specs.Lines.{cells_of, Sound};
ghost use Rattle.hint.specs.Hint.{eyes_from};
ghost use Rattle.hint.specs.Seen.{gap_of, sword_eye, OnlyEye};

use grid::mask_on;
use masks::{bit_at, set_bit};
use near::next_start;
use point::{Table, address_by, line_no, point_at};
use rules::{Bit, Code, Player};

// The only eye, where there is one only; None where there are more. Sword by Sword, until one has another eye than the first.
pub(crate) fn only_eye(
    lines: &[u16; 144],
    table: &Table,
    code: Code,
    side: Player,
    swords: [u16; 4],
) -> Option<u8>
    requires { Sound lines.now × (get_or (cells_of lines.now) code 0 ≡ 0)
        × (swords ≡ start_masks (rows_through side Sword (cells_of lines.now) code))
        × T (some_row (rows_through side Sword (cells_of lines.now) code)) }
    ensures { OnlyEye (eyes_from side (put side (cells_of lines.now) code) code) result }
{
    let mut sword = next_start(swords, 0);
    let first = eye_at(lines, table, code, side, sword);
    sword = next_start(swords, sword + 1);
    // stays: a walk from Sword to Sword, at uneven steps
    while sword < 64 {
        if eye_at(lines, table, code, side, sword) != first {
            return None;
        }
        sword = next_start(swords, sword + 1);
    }
    Some(first)
}

// The eye of the Four that the stone makes of a Sword: the gap that is left.
fn eye_at(lines: &[u16; 144], table: &Table, code: Code, side: Player, sword: u8) -> u8
    requires { Sound lines.now × (get_or (cells_of lines.now) code 0 ≡ 0) × (sword < 64)
        × T (rows_through side Sword (cells_of lines.now) code (sword / 16) (sword % 16)) }
    ensures { result ≡ sword_eye side (cells_of lines.now) code (sword / 16) (sword % 16) }
{
    let d = sword / 16;
    let code = code.get();
    let here = address_by(table.numbers(), d, code);
    let stones = set_bit(mask_on(lines, here.key, side), here.cell, true);
    point_at(
        d,
        line_no(d, code),
        gap_from(stones, Bit::new(sword % 16).unwrap()),
    ) as u8
}

// The first of five cells from j on without a stone of the mask, or the last.
fn gap_from(stones: u16, j: Bit) -> u8
    ensures { result ≡ gap_of (bit stones) j }
{
    let j = j.get();
    for k in 0..4 {
        if !bit_at(stones, j + k) {
            return j + k;
        }
    }
    j + 4
}
