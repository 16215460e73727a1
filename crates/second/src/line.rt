// Lines, walked by coordinates. "x and y run 0 to 14; code = 15x + y." A line is named by a point on it and by its direction:
// 0 vertical, 1 horizontal, 2 ascending, 3 descending. A step on along it is (0, +1), (+1, 0), (+1, +1), (+1, −1). Its cells are 0, 1, 2
// and so on, from the edge of the board on.
ghost use Rattle.std.specs.Prelude.{◌≡◌, ◌<◌};
ghost use Rattle.rules.specs.Numbers.{direction_no};
ghost use Rattle.rules.specs.Point.{by_direction, line_no, cell_no, point_at};
ghost use Rattle.second.specs.Walk.{size_along, steps_on, x_at, y_at};

use rules::{Code, Direction, Way};

// A direction by its number.
pub(crate) fn way(direction: Direction) -> Way
    ensures { result ≡ direction_no direction }
{
    Way::new(direction.number()).unwrap()
}

// One of four numbers, by the direction.
pub(crate) fn by_direction(
    d: Way,
    vertical: u8,
    horizontal: u8,
    ascending: u8,
    descending: u8,
) -> u8
    ensures { result ≡ by_direction d vertical horizontal ascending descending }
{
    match d.get() {
        0 => vertical,
        1 => horizontal,
        2 => ascending,
        _ => descending,
    }
}

// The point's cell on its line: as many steps back lead from it to the edge of the board.
pub(crate) fn cell_no(d: Way, code: Code) -> u8
    ensures { result ≡ cell_no d code }
{
    let x = code.get() / 15;
    let y = code.get() % 15;
    by_direction(d, y, x, x.min(y), x.min(14 - y))
}

// How many steps on lead from it to the edge.
#[tactic(auto, unfolding(crate::specs::Walk::steps_on))]
fn steps_on(d: Way, code: Code) -> u8
    ensures { result ≡ steps_on d code }
{
    let x = code.get() / 15;
    let y = code.get() % 15;
    by_direction(d, 14 - y, 14 - x, (14 - x).min(14 - y), (14 - x).min(y))
}

// How many cells the line has: those before the point, the point itself, those after it.
pub(crate) fn size_along(d: Way, code: Code) -> u8
    ensures { result ≡ size_along d code }
{
    cell_no(d, code) + 1 + steps_on(d, code)
}

// x of cell i: back to the edge, then i steps on. Along a vertical line x stays, along any other a step on is one more.
// stays: `i < size_along d code` speaks of d and code, so a type that says it would hold all three, and read no plainer
fn x_at(d: Way, code: Code, i: u8) -> u8
    requires { i < size_along d code }
    ensures { result ≡ x_at d code i }
{
    let x = code.get() / 15;
    if d.get() == 0 {
        return x;
    }
    x - cell_no(d, code) + i
}

// y of cell i, likewise. Along a horizontal line y stays, along a descending one a step on is one less, along the others one more.
fn y_at(d: Way, code: Code, i: u8) -> u8
    requires { i < size_along d code }
    ensures { result ≡ y_at d code i }
{
    let y = code.get() % 15;
    if d.get() == 1 {
        return y;
    }
    if d.get() == 3 {
        return y + cell_no(d, code) - i;
    }
    y - cell_no(d, code) + i
}

// The point at cell i of the line.
pub(crate) fn point_along(d: Way, code: Code, i: u8) -> Code
    requires { i < size_along d code }
    ensures { result ≡ point_at d (line_no d code) i }
{
    Code::new(15 * x_at(d, code, i) + y_at(d, code, i)).unwrap()
}
