// The fronts: each tests what it is given, in section 2's order, collects its list, and hands it out.
ghost use Rattle.std.specs.Prelude.{◌≡◌};
ghost use Rattle.rules.specs.Numbers.{player_of};
ghost use Rattle.rules.specs.Refusals.{first, view_refusal};
ghost use Rattle.rules.specs.Grid.{stones_of, empty_points, neighbours};
ghost use Rattle.rules.specs.Views.{turn_cells};
ghost use Rattle.lent.specs.Lists.{list_out, counted};
ghost use Rattle.cells.specs.Cells.{cells_refusal, cells_stones_refusal, cells_neighbours_refusal};

use super::codes::{neighbor_points, points_with};
use super::refusal::{cells_neighbors_refusal, cells_refusal};
use super::turn::turned_cells;
use lent::hand_out;
use point::view_refusal;
use rules::{Player, Refusal, colour_refusal};

// The cells of the board in a view.
#[tactic(auto, unfolding(rules::specs::Answers::answer, rules::specs::Refusals::first, lent::specs::Lists::list_refusal, lent::specs::Lists::list_out, lent::specs::Lists::counted))]
pub fn turned_of(cells: &[u8], view: u8, out: &mut [u8]) -> Result<u16, Refusal>
    ensures { (result ≡ counted 1 (first (cells_refusal cells.now) (view_refusal view)) out.old
        (turn_cells view cells.now))
        × (out.new ≡ list_out (first (cells_refusal cells.now) (view_refusal view)) out.old
        (turn_cells view cells.now)) }
{
    cells_refusal(cells)?;
    view_refusal(view)?;
    let bytes = turned_cells(cells, view);
    hand_out(&bytes, 225, out)
}

// The colour's stones, as codes, ascending.
#[tactic(auto, unfolding(rules::specs::Answers::answer, rules::specs::Refusals::first, lent::specs::Lists::list_refusal, lent::specs::Lists::list_out, lent::specs::Lists::counted, crate::specs::Cells::cells_stones_refusal))]
pub fn stones_of(cells: &[u8], colour: u8, out: &mut [u8]) -> Result<u16, Refusal>
    ensures { (result ≡ counted 1 (cells_stones_refusal cells.now colour) out.old
        (stones_of (player_of colour) cells.now))
        × (out.new ≡ list_out (cells_stones_refusal cells.now colour) out.old
        (stones_of (player_of colour) cells.now)) }
{
    cells_refusal(cells)?;
    colour_refusal(colour)?;
    let found = points_with(cells, Player::or_white(colour).number());
    hand_out(found.as_slice(), found.len() as u16, out)
}

// The empty points, as codes, ascending.
#[tactic(auto, unfolding(rules::specs::Answers::answer, rules::specs::Refusals::first, lent::specs::Lists::list_refusal, lent::specs::Lists::list_out, lent::specs::Lists::counted))]
pub fn empty_points_of(cells: &[u8], out: &mut [u8]) -> Result<u16, Refusal>
    ensures { (result ≡ counted 1 (cells_refusal cells.now) out.old (empty_points cells.now))
        × (out.new ≡ list_out (cells_refusal cells.now) out.old (empty_points cells.now)) }
{
    cells_refusal(cells)?;
    let found = points_with(cells, 0);
    hand_out(found.as_slice(), found.len() as u16, out)
}

// The cells from `distance` before a point to `distance` after it, in each direction, short diagonals too, the point each time.
#[tactic(auto, unfolding(rules::specs::Answers::answer, rules::specs::Refusals::first, lent::specs::Lists::list_refusal, lent::specs::Lists::list_out, lent::specs::Lists::counted))]
pub fn neighbors_of(
    cells: &[u8],
    code: u8,
    distance: u8,
    only_empty: bool,
    out: &mut [u8],
) -> Result<u16, Refusal>
    ensures { (result ≡ counted 1 (cells_neighbours_refusal cells.now code distance) out.old
        (neighbours cells.now code distance only_empty))
        × (out.new ≡ list_out (cells_neighbours_refusal cells.now code distance) out.old
        (neighbours cells.now code distance only_empty)) }
{
    cells_neighbors_refusal(cells, code, distance)?;
    let found = neighbor_points(cells, code, distance, only_empty);
    hand_out(found.as_slice(), found.len() as u16, out)
}
