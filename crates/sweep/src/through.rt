// The rows through each point, from the marks of the points where rows start, a list of marks for each direction. `five` says that a row
// counts as five cells from its start, else as the four that its two windows share.
ghost use Rattle.std.specs.Prelude.{◌≡◌, ◌&&◌, ◌≤◌, ◌<◌};
ghost use Rattle.rules.specs.Bit.{mask_of};
ghost use Rattle.rules.specs.Forbidden.{some_start, apart, some_row, more_than_one};
ghost use Rattle.sweep.specs.Marks.{is_marked, Marked, Says, back_of, cells_if, starts_through, marks_in, all_through};

use super::marking::back;

// For each point of a row, whether a row of one direction goes through it, and whether more than one does.
#[derive(Clone, Copy)]
struct Met {
    some: u16,
    apart: u16,
}

// For each point of row i, whether some row goes through it.
pub(crate) fn some_at(
    v: &[u16; 26],
    h: &[u16; 26],
    a: &[u16; 26],
    d: &[u16; 26],
    i: usize,
    five: bool,
) -> u16
    requires { Marked v.now × Marked h.now × Marked a.now × Marked d.now × (5 ≤ i) × (i < 21) }
    ensures { Says result i
        (λ p. some_row (all_through (cells_if five) (marks_in v.now h.now a.now d.now) p)) }
{
    met_at(v, 0, i, five).some
        | met_at(h, 1, i, five).some
        | met_at(a, 2, i, five).some
        | met_at(d, 3, i, five).some
}

// ""More than one" means starts on two lines, or on one line a set not contained in {j, j+1}."
pub(crate) fn more_at(
    v: &[u16; 26],
    h: &[u16; 26],
    a: &[u16; 26],
    d: &[u16; 26],
    i: usize,
    five: bool,
) -> u16
    requires { Marked v.now × Marked h.now × Marked a.now × Marked d.now × (5 ≤ i) × (i < 21) }
    ensures { Says result i
        (λ p. more_than_one (all_through (cells_if five) (marks_in v.now h.now a.now d.now) p)) }
{
    let v = met_at(v, 0, i, five);
    let h = met_at(h, 1, i, five);
    let a = met_at(a, 2, i, five);
    let d = met_at(d, 3, i, five);
    let two = v.some & (h.some | a.some | d.some) | h.some & (a.some | d.some) | a.some & d.some;
    two | v.apart | h.apart | a.apart | d.apart
}

// A row through a point starts up to four cells before it, and two such rows are apart where their starts are two cells or more apart.
fn met_at(m: &[u16; 26], d: u8, i: usize, five: bool) -> Met
    requires { Marked m.now × (d < 4) × (5 ≤ i) × (i < 21) }
    ensures some { Says result.some i (λ p. some_start (starts_through (cells_if five) (is_marked m.now) d p)) }
    ensures apart { Says result.apart i (λ p. apart 16 (starts_through (cells_if five) (is_marked m.now) d p)) }
{
    let s0 = back(m, d, i, 0);
    let s1 = back(m, d, i, 1);
    let s2 = back(m, d, i, 2);
    let s3 = back(m, d, i, 3);
    let s4 = fifth(m, d, i, five);
    Met {
        some: s0 | s1 | s2 | s3 | s4,
        apart: s0 & (s2 | s3 | s4) | s1 & (s3 | s4) | s2 & s4,
    }
}

// The rows that start four cells before a point, of those that count as five cells.
fn fifth(m: &[u16; 26], d: u8, i: usize, five: bool) -> u16
    requires { Marked m.now × (d < 4) × (5 ≤ i) × (i < 21) }
    ensures { Says result i (λ p. five && back_of (is_marked m.now) d 4 p) }
{
    all_if(five) & back(m, d, i, 4)
}

// All bits or none.
fn all_if(on: bool) -> u16
    ensures { result ≡ mask_of 16 (λ x. on) }
{
    if on { 65535 } else { 0 }
}
