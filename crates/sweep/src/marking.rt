// Marks of points, and the marks k steps along a direction: 0 vertical, 1 horizontal, 2 ascending, 3 descending.
ghost use Rattle.std.specs.Prelude.{◌≡◌, ◌&&◌, ◌+◌, ◌*◌, ◌≤◌, ◌<◌, eqb, get_or, length};
ghost use Rattle.rules.specs.Tools.{any_below};
ghost use Rattle.rules.specs.Bit.{bit, mask_of};
ghost use Rattle.rules.specs.Point.{x_of, y_of, by_direction};
ghost use Rattle.sweep.specs.Marks.{marks, is_marked, Marked, every_point, codes_below, has_value, Says, ahead_of, back_of};

use masks::bit_at;

// Whether a point is marked. (A code over 224 is no point: bit 15 or more of a mask, which `sweep_points` leaves clear.)
pub fn is_marked(marks: &[u16; 26], code: u8) -> bool
    ensures { result ≡ bit (get_or marks.now (y_of code + 5) 0) (x_of code) }
{
    bit_at(marks[(code % 15 + 5) as usize], code / 15)
}

// The columns that have a mark.
pub fn marked_columns(marks: &[u16; 26]) -> u16
    ensures { result ≡ mask_of 16 (λ x. any_below 26 (λ i. bit (get_or marks.now i 0) x)) }
{
    let mut columns = 0u16;
    for &mask in marks {
        columns |= mask;
    }
    columns
}

// The points whose cell has a value.
pub(crate) fn marks_of(cells: &[u8], value: u8) -> [u16; 26]
    requires { length cells.now ≡ 225 }
    ensures { result ≡ marks (has_value cells.now value) }
{
    let mut marks = [0u16; 26];
    for x in 0..15u8 {
        mark_column(&mut marks, cells, value, x);
    }
    marks
}

// .. column by column: the codes ascend by column, and in it by row.
fn mark_column(m: &mut [u16; 26], cells: &[u8], value: u8, x: u8)
    requires { (length cells.now ≡ 225) × (x < 15) × (m.old ≡ marks (codes_below (15 * x) (has_value cells.now value))) }
    ensures { m.new ≡ marks (codes_below (15 * x + 15) (has_value cells.now value)) }
{
    let first = 15 * (x as usize);
    for y in 0..15usize {
        m[y + 5] |= mark(cells[first + y] == value, x);
    }
}

// A mark in column x, or none.
fn mark(on: bool, x: u8) -> u16
    requires { x < 15 }
    ensures { result ≡ mask_of 16 (λ j. on && eqb j x) }
{
    if on { 1u16 << x } else { 0 }
}

// Every point.
pub(crate) fn whole() -> [u16; 26]
    ensures { result ≡ marks every_point }
{
    let mut marks = [0u16; 26];
    marks[5..20].fill(32767);
    marks
}

// How far up a step of k cells leads: on a vertical line and on an ascending one, by as many rows. The direction gives
// numbers that stay the same while a loop goes over the rows, so that the loop itself has no branch and is made vector code.
fn up(d: u8, k: usize) -> usize
    ensures { result ≡ by_direction d k 0 k 0 }
{
    if d == 0 || d == 2 { k } else { 0 }
}

// .. how far down: on a descending line.
fn down(d: u8, k: usize) -> usize
    ensures { result ≡ by_direction d 0 0 0 k }
{
    if d < 3 { 0 } else { k }
}

// .. and by how many columns: on every line but a vertical one.
fn aside(d: u8, k: usize) -> usize
    ensures { result ≡ by_direction d 0 k k k }
{
    if d == 0 { 0 } else { k }
}

// For each point of row i, whether the point k cells after it on its line is marked.
pub(crate) fn ahead(m: &[u16; 26], d: u8, i: usize, k: usize) -> u16
    requires { Marked m.now × (d < 4) × (5 ≤ i) × (i < 21) × (k ≤ 5) }
    ensures { Says result i (ahead_of (is_marked m.now) d k) }
{
    m[i + up(d, k) - down(d, k)] >> aside(d, k)
}

// .. and the point k cells before it.
pub(crate) fn back(m: &[u16; 26], d: u8, i: usize, k: usize) -> u16
    requires { Marked m.now × (d < 4) × (5 ≤ i) × (i < 21) × (k ≤ 5) }
    ensures { Says result i (back_of (is_marked m.now) d k) }
{
    m[i + down(d, k) - up(d, k)] << aside(d, k)
}
