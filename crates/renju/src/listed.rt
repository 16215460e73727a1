// Lists read off 225 cell bytes into a lent buffer: how many items there are, and their bytes in front; no other byte is written.
ghost use Rattle.std.specs.Prelude.{◌≡◌};
ghost use Rattle.rules.specs.Numbers.{player_of, kind_of};
ghost use Rattle.rules.specs.Grid.{stones_of, empty_points, neighbours, rows_of, rows_on_point, four_eyes};
ghost use Rattle.rules.specs.Forbidden.{forbidden_list};
ghost use Rattle.lent.specs.Lists.{list_out};
ghost use Rattle.board.specs.Boards.{refusal_for, rows_on_refusal};
ghost use Rattle.lists.specs.Lists.{rows_refusal};
ghost use Rattle.renju.specs.Answers.{list_word, refusal_of};
ghost use Rattle.cells.specs.Cells.{cells_refusal, cells_stones_refusal, cells_neighbours_refusal};

use super::answer::{refused, word};
use board::Board;
use cells::{empty_points_of, neighbors_of, stones_of};
use lists::{four_eyes_on, rows, rows_on};
use referee::forbidden_points_of;

// The colour's stones, as codes, ascending.
pub fn renju_stones(cells: &[u8], colour: u8, out: &mut [u8]) -> u32
    ensures { (result ≡ list_word 1 (cells_stones_refusal cells.now colour) out.old
        (stones_of (player_of colour) cells.now))
        × (out.new ≡ list_out (cells_stones_refusal cells.now colour) out.old
        (stones_of (player_of colour) cells.now)) }
{
    word(stones_of(cells, colour, out))
}

// The empty points, as codes, ascending.
pub fn renju_empty_points(cells: &[u8], out: &mut [u8]) -> u32
    ensures { (result ≡ list_word 1 (cells_refusal cells.now) out.old (empty_points cells.now))
        × (out.new ≡ list_out (cells_refusal cells.now) out.old (empty_points cells.now)) }
{
    word(empty_points_of(cells, out))
}

// The points up to a distance along the four lines through a point, as codes, line by line.
pub fn renju_neighbors(
    cells: &[u8],
    code: u8,
    distance: u8,
    only_empty: bool,
    out: &mut [u8],
) -> u32
    ensures { (result ≡ list_word 1 (cells_neighbours_refusal cells.now code distance) out.old
        (neighbours cells.now code distance only_empty))
        × (out.new ≡ list_out (cells_neighbours_refusal cells.now code distance) out.old
        (neighbours cells.now code distance only_empty)) }
{
    word(neighbors_of(cells, code, distance, only_empty, out))
}

// The colour's rows of a kind, four bytes each: key, start, stones mask, eyes mask.
pub fn renju_rows(cells: &[u8], colour: u8, kind: u8, out: &mut [u8]) -> u32
    ensures { (result ≡ list_word 4 (refusal_of cells.now (λ b. rows_refusal b colour kind)) out.old
        (rows_of (player_of colour) (kind_of kind) cells.now))
        × (out.new ≡ list_out (refusal_of cells.now (λ b. rows_refusal b colour kind)) out.old
        (rows_of (player_of colour) (kind_of kind) cells.now)) }
{
    match Board::from_cells(cells) {
        Ok(board) => word(rows(board, colour, kind, out)),
        Err(refusal) => refused(refusal),
    }
}

// .. those through a point.
pub fn renju_rows_on(cells: &[u8], code: u8, colour: u8, kind: u8, out: &mut [u8]) -> u32
    ensures { (result ≡ list_word 4 (refusal_of cells.now (λ b. rows_on_refusal b code colour kind)) out.old
        (rows_on_point (player_of colour) (kind_of kind) cells.now code))
        × (out.new ≡ list_out (refusal_of cells.now (λ b. rows_on_refusal b code colour kind)) out.old
        (rows_on_point (player_of colour) (kind_of kind) cells.now code)) }
{
    match Board::from_cells(cells) {
        Ok(board) => word(rows_on(board, code, colour, kind, out)),
        Err(refusal) => refused(refusal),
    }
}

// The points that make the colour's Fours through a point a five, as codes, line by line.
pub fn renju_four_eyes_on(cells: &[u8], code: u8, colour: u8, out: &mut [u8]) -> u32
    ensures { (result ≡ list_word 1 (refusal_of cells.now (λ b. refusal_for b code colour)) out.old
        (four_eyes (player_of colour) cells.now code))
        × (out.new ≡ list_out (refusal_of cells.now (λ b. refusal_for b code colour)) out.old
        (four_eyes (player_of colour) cells.now code)) }
{
    match Board::from_cells(cells) {
        Ok(board) => word(four_eyes_on(board, code, colour, out)),
        Err(refusal) => refused(refusal),
    }
}

// The points forbidden to Black, two bytes each: kind and code, by ascending code.
pub fn renju_forbidden_points(cells: &[u8], out: &mut [u8]) -> u32
    ensures { (result ≡ list_word 2 (cells_refusal cells.now) out.old (forbidden_list cells.now))
        × (out.new ≡ list_out (cells_refusal cells.now) out.old (forbidden_list cells.now)) }
{
    word(forbidden_points_of(cells, out))
}
