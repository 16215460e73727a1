// The least of the eight turned boards.
ghost use Rattle.std.specs.Prelude.{◌≡◌};
ghost use Rattle.rules.specs.Views.{turn_cells};
ghost use Rattle.canonical.specs.Canonical.{canonical_view};

use super::order::less;
use cells::turned_cells;

// A view and the cells of the board in it.
#[derive(Clone, Copy, Debug, PartialEq, Eq)]
pub(crate) struct Seen {
    pub(crate) view: u8,
    pub(crate) cells: [u8; 225],
}

// Each view's board beside the least so far: a later one takes its place only where it is less.
pub(crate) fn least_seen(cells: &[u8]) -> Seen
    ensures { (result.view ≡ canonical_view cells.now) × (result.cells ≡ turn_cells result.view cells.now) }
{
    let mut least = turned_cells(cells, 0);
    let mut first = 0u8;
    for view in 1..8u8 {
        let other = turned_cells(cells, view);
        if less(&other, &least) {
            least = other;
            first = view;
        }
    }
    Seen {
        view: first,
        cells: least,
    }
}
