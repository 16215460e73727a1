// Points collected as codes: those that hold a stone or none, and a point's neighbours.
ghost use Rattle.std.specs.Prelude.{◌≡◌, not, ◌||◌, ◌++◌, ◌+◌, ◌≤◌, ◌<◌, length, get_or, option_to_list};
ghost use Rattle.rules.specs.Grid.{is_empty, neighbours, neighbour_item, neighbours_in};
ghost use Rattle.cells.specs.Cells.{value_list};

use super::change::value_at;
use lent::Kept;
use point::{cell_no, line_no, line_size, point_at};
use rules::is_colour;

// The points whose cell has this value, ascending, of any bytes: past their end a cell has the value 0.
pub fn points_with(cells: &[u8], value: u8) -> Kept<225>
    ensures { result ≡ value_list cells.now value }
{
    let mut found = Kept::<225>::new();
    for p in 0..225u8 {
        if value_at(cells, p as usize) == value {
            found.keep(&[p]);
        }
    }
    found
}

// The cells from `distance` before a point to `distance` after it, in each direction.
pub(crate) fn neighbor_points(cells: &[u8], code: u8, distance: u8, only_empty: bool) -> Kept<225>
    requires { (code < 225) × (distance < 15) }
    ensures { result ≡ neighbours cells.now code distance only_empty }
{
    let mut found = Kept::<225>::new();
    for d in 0..4u8 {
        keep_neighbors(cells, d, code, distance, only_empty, &mut found);
    }
    found
}

// Those in one direction, put behind what was found before.
fn keep_neighbors(
    cells: &[u8],
    d: u8,
    code: u8,
    distance: u8,
    only_empty: bool,
    found: &mut Kept<225>,
)
    requires { (code < 225) × (distance < 15) × (d < 4) × (length found.old + 29 ≤ 225) }
    ensures { found.new ≡ found.old ++ neighbours_in cells.now code distance only_empty d }
{
    for s in 0..distance + distance + 1 {
        if let Some(there) = neighbor_at(cells, d, code, distance, only_empty, s) {
            found.keep(&[there]);
        }
    }
}

// The cell s steps on from `distance` before the point, if it is on the line and may be named.
fn neighbor_at(cells: &[u8], d: u8, code: u8, distance: u8, only_empty: bool, s: u8) -> Option<u8>
    requires { (code < 225) × (distance < 15) × (d < 4) × (s < 29) }
    ensures { option_to_list result ≡ neighbour_item cells.now code distance only_empty d s }
{
    let i = line_no(d, code);
    let at = cell_no(d, code) + s;
    if at < distance || line_size(d, i) <= at - distance {
        return None;
    }
    let there = point_at(d, i, at - distance) as u8;
    if may_name(cells, there, only_empty) {
        Some(there)
    } else {
        None
    }
}

// Whether a point may be named: any, or only where no stone stands.
fn may_name(cells: &[u8], code: u8, only_empty: bool) -> bool
    ensures { result ≡ (not only_empty || is_empty (get_or cells.now code 0)) }
{
    !only_empty || !is_colour(value_at(cells, code as usize))
}
