// Section 3 by arithmetic: the line through a point, its size, and the point at a cell of a line. A direction over 3 is taken for Descending
// everywhere here. A code over 224 has the same arithmetic, x = code / 15 and y = code % 15, and is no point.
#![tactic(auto, unfolding(rules::specs::Point::line_no, rules::specs::Point::cell_no, rules::specs::Point::line_count, rules::specs::Point::line_size, rules::specs::Point::stored, rules::specs::Point::point_at))]

ghost use Rattle.std.specs.Prelude.{◌≡◌, cond, ◌+◌, ◌-◌, ◌<◌, ltb};
ghost use Rattle.rules.specs.Point.{by_direction, step_of, line_no, cell_no, line_count, line_size, stored, point_at, code_of};

use rules::Direction;

// One of four, by the direction.
pub(crate) fn by_direction(d: u8, vertical: u8, horizontal: u8, ascending: u8, descending: u8) -> u8
    ensures { result ≡ by_direction d vertical horizontal ascending descending }
{
    match Direction::or_descending(d) {
        Direction::Vertical => vertical,
        Direction::Horizontal => horizontal,
        Direction::Ascending => ascending,
        Direction::Descending => descending,
    }
}

// The number of the line through a point.
pub fn line_no(d: u8, code: u8) -> u8
    ensures { result ≡ line_no d code }
{
    let x = code / 15;
    let y = code % 15;
    by_direction(d, x, y, x + 14 - y, x + y)
}

// The point's cell on that line.
pub fn cell_no(d: u8, code: u8) -> u8
    ensures { result ≡ cell_no d code }
{
    let x = code / 15;
    let y = code % 15;
    by_direction(
        d,
        y,
        x,
        below_middle(x + 14 - y, x, y),
        below_middle(x + y, x, 14 - y),
    )
}

// The first for a diagonal before the longest, which is number 14, else the second.
fn below_middle(i: u8, before: u8, after: u8) -> u8
    ensures { result ≡ cond (ltb i 14) before after }
{
    if i < 14 { before } else { after }
}

// From one cell of a line to the next the code grows by this.
pub fn step_in(d: u8) -> u8
    ensures { result ≡ step_of d }
{
    by_direction(d, 1, 15, 16, 14)
}

// How many lines a direction has.
pub(crate) fn line_count(d: u8) -> u8
    ensures { result ≡ line_count d }
{
    by_direction(d, 15, 15, 29, 29)
}

// How many cells a line has. Of numbers that are no line's: 15 for a vertical or a horizontal one over 14, 0 for a diagonal over 28.
pub fn line_size(d: u8, i: u8) -> u8
    ensures { result ≡ line_size d i }
{
    let diagonal = diagonal_size(i);
    by_direction(d, 15, 15, diagonal, diagonal)
}

fn diagonal_size(i: u8) -> u8
    ensures { result ≡ cond (ltb i 14) (i + 1) (29 - i) }
{
    if i < 14 {
        i + 1
    } else {
        29u8.saturating_sub(i)
    }
}

// Whether a line is long enough to be stored.
pub(crate) fn is_stored(d: u8, i: u8) -> bool
    ensures { result ≡ stored d i }
{
    d < 2 || 4 <= i && i <= 24
}

// The code of the point at cell j of line i; of a cell that is not on that line, what the same sum gives, which is no point of the line and may
// be wider than a code.
pub fn point_at(d: u8, i: u8, j: u8) -> u16
    ensures { result ≡ point_at d i j }
{
    match Direction::or_descending(d) {
        Direction::Vertical => code_of(i as u16, j as u16),
        Direction::Horizontal => code_of(j as u16, i as u16),
        Direction::Ascending => ascending_at(i as u16, j as u16),
        Direction::Descending => descending_at(i as u16, j as u16),
    }
}

fn ascending_at(i: u16, j: u16) -> u16
    requires { (i < 256) × (j < 256) }
    ensures { result ≡ cond (ltb i 14) (code_of j (14 - i + j)) (code_of (i + j - 14) j) }
{
    if i < 14 {
        code_of(j, 14 - i + j)
    } else {
        code_of(i + j - 14, j)
    }
}

fn descending_at(i: u16, j: u16) -> u16
    requires { (i < 256) × (j < 256) }
    ensures { result ≡ cond (ltb i 14) (code_of j (i - j)) (code_of (i + j - 14) (14 - j)) }
{
    if i < 14 {
        code_of(j, i.saturating_sub(j))
    } else {
        code_of(i + j - 14, 14u16.saturating_sub(j))
    }
}

fn code_of(x: u16, y: u16) -> u16
    requires { (x < 512) × (y < 512) }
    ensures { result ≡ code_of x y }
{
    15 * x + y
}
