// Points by coordinates, and the cells of lines that they are: `Point` and `Index` of point.rs.
#![tactic(auto, unfolding(rules::specs::Answers::answer, rules::specs::Refusals::first, rules::specs::Refusals::unless, crate::specs::Points::point_refusal, crate::specs::Points::index_refusal, crate::specs::Points::offset_refusal, rules::specs::Refusals::code_refusal, rules::specs::Refusals::direction_refusal))]

ghost use Rattle.std.specs.Prelude.{◌≡◌, ◌+◌, ◌-◌, pos, ◌+ℤ◌};
ghost use Rattle.rules.specs.Refusals.{first, code_refusal, direction_refusal};
ghost use Rattle.rules.specs.Point.{code_of, line_size};
ghost use Rattle.rules.specs.Answers.{answer, checked};
ghost use Rattle.point.specs.Answers.{cell_on};
ghost use Rattle.point.specs.Points.{point_refusal};
ghost use Rattle.point.specs.Points.{index_refusal, offset_refusal, point_of, index_of, index_at, point_on};

use super::key::line_refusal;
use super::lines::{cell_no, line_no, line_size, point_at};
use rules::{Refusal, unless};

// Column and row, 0 to 14 each.
#[derive(Clone, Copy, Debug, PartialEq, Eq)]
pub struct Point {
    pub x: u8,
    pub y: u8,
}

// Cell j of line i in direction d.
#[derive(Clone, Copy, Debug, PartialEq, Eq)]
pub struct Index {
    pub d: u8,
    pub i: u8,
    pub j: u8,
}

// The point of a code.
impl TryFrom<u8> for Point {
    type Error = Refusal;

    ghost try_from_gives = { λ code r. r ≡ answer (code_refusal code) (point_of code) };

    fn try_from(code: u8) -> Result<Point, Refusal> {
        code_refusal(code)?;
        Ok(Point {
            x: code / 15,
            y: code % 15,
        })
    }
}

impl Point {
    // Its code, 15x + y.
    pub fn code(self) -> Result<u8, Refusal>
        ensures { result ≡ answer (point_refusal self) (code_of self.x self.y) }
    {
        self.refusal()?;
        Ok(15 * self.x + self.y)
    }

    // The line through it in a direction, and its cell on that line.
    pub fn to_index(self, d: u8) -> Result<Index, Refusal>
        ensures { result ≡ answer (first (point_refusal self) (direction_refusal d)) (index_at d (code_of self.x self.y)) }
    {
        let code = self.code()?;
        direction_refusal(d)?;
        Ok(Index {
            d,
            i: line_no(d, code),
            j: cell_no(d, code),
        })
    }

    // NoPoint for a coordinate over 14.
    fn refusal(self) -> Result<(), Refusal>
        ensures { result ≡ checked (point_refusal self) }
    {
        unless(self.x <= 14 && self.y <= 14, Refusal::NoPoint)
    }
}

impl Index {
    // The index itself, where there is such a line and it has such a cell.
    pub fn new(d: u8, i: u8, j: u8) -> Result<Index, Refusal>
        ensures { result ≡ answer (index_refusal (index_of d i j)) (index_of d i j) }
    {
        let index = Index { d, i, j };
        index.refusal()?;
        Ok(index)
    }

    // The point there.
    pub fn to_point(self) -> Result<Point, Refusal>
        ensures { result ≡ answer (index_refusal self) (point_of (point_on self)) }
    {
        self.refusal()?;
        let code = point_at(self.d, self.i, self.j);
        Ok(Point {
            x: (code / 15) as u8,
            y: (code % 15) as u8,
        })
    }

    // The index that many steps on; refused 10 past the line's end.
    pub fn offset(self, step: u8) -> Result<Index, Refusal>
        ensures { result ≡ answer (offset_refusal self step) (index_of self.d self.i (self.j + step)) }
    {
        self.offset_refusal(step)?;
        Ok(Index {
            j: self.j + step,
            ..self
        })
    }

    // The index that many steps on, or back where the number is negative; none past either end.
    pub fn checked_offset(self, step: i8) -> Result<Option<Index>, Refusal>
        ensures { result ≡ answer (index_refusal self) (cell_on self (pos self.j +ℤ step)) }
    {
        self.refusal()?;
        Ok(self.cell_on(moved(self.j, step)))
    }

    // The last cell of its line.
    pub fn max_j(self) -> Result<u8, Refusal>
        ensures { result ≡ answer (index_refusal self) (line_size self.d self.i - 1) }
    {
        self.refusal()?;
        Ok(line_size(self.d, self.i) - 1)
    }

    // NoNumber for the direction, NoPlace for the line's number, NoPlace for the cell.
    fn refusal(self) -> Result<(), Refusal>
        ensures { result ≡ checked (index_refusal self) }
    {
        line_refusal(self.d, self.i)?;
        unless(self.j < line_size(self.d, self.i), Refusal::NoPlace)
    }

    // .. then NoPlace for the cell that many steps on, counted where it cannot overflow.
    fn offset_refusal(self, step: u8) -> Result<(), Refusal>
        ensures { result ≡ checked (offset_refusal self step) }
    {
        self.refusal()?;
        let j = self.j as u16 + step as u16;
        unless(j < line_size(self.d, self.i) as u16, Refusal::NoPlace)
    }

    // The index on the same line at a cell that may be past either end.
    fn cell_on(self, j: i16) -> Option<Index>
        ensures { result ≡ cell_on self j }
    {
        if 0 <= j && j < line_size(self.d, self.i) as i16 {
            return Some(Index { j: j as u8, ..self });
        }
        None
    }
}

// The cell that steps reach, which may be negative or past 127.
fn moved(j: u8, step: i8) -> i16
    ensures { result ≡ pos j +ℤ step }
{
    j as i16 + step as i16
}

// NoPoint for a code over 224.
pub fn code_refusal(code: u8) -> Result<(), Refusal>
    ensures { result ≡ checked (code_refusal code) }
{
    unless(code < 225, Refusal::NoPoint)
}

// NoNumber for a direction over 3.
pub fn direction_refusal(d: u8) -> Result<(), Refusal>
    ensures { result ≡ checked (direction_refusal d) }
{
    unless(d < 4, Refusal::NoNumber)
}
