// The fronts: each tests what it is given, in section 2's order, collects its list, and hands it out. Stones, empty points and neighbours
// are read off the cells that the board shows.
ghost use Rattle.std.specs.Prelude.{◌≡◌};
ghost use Rattle.rules.specs.Numbers.{player_of, kind_of};
ghost use Rattle.rules.specs.Grid.{stones_of, empty_points, neighbours, rows_of, rows_on_point, four_eyes};
ghost use Rattle.lent.specs.Lists.{list_out, counted};
ghost use Rattle.board.specs.Boards.{cells, board_refusal, refusal_for, rows_on_refusal};
ghost use Rattle.lists.specs.Lists.{stones_refusal, neighbours_refusal, rows_refusal, mask_refusal, mask_points};

use super::codes::{four_eyes, mask_points};
use super::refusal::{mask_refusal, rows_refusal};
use super::row_bytes::{all_rows, rows_through};
use board::Board;
use cells::{empty_points_of, neighbors_of, stones_of};
use grid::cells_on;
use lent::hand_out;
use rules::{Code, Key, Player, Refusal, RowKind};

// The colour's stones, as codes, ascending.
pub fn stones(board: Board, colour: u8, out: &mut [u8]) -> Result<u16, Refusal>
    ensures { (result ≡ counted 1 (stones_refusal board colour) out.old
        (stones_of (player_of colour) (cells board)))
        × (out.new ≡ list_out (stones_refusal board colour) out.old
        (stones_of (player_of colour) (cells board))) }
{
    board.refusal()?;
    let cells = cells_on(&board.lines);
    stones_of(&cells, colour, out)
}

// The empty points, as codes, ascending.
pub fn empty_points(board: Board, out: &mut [u8]) -> Result<u16, Refusal>
    ensures { (result ≡ counted 1 (board_refusal board) out.old (empty_points (cells board)))
        × (out.new ≡ list_out (board_refusal board) out.old (empty_points (cells board))) }
{
    board.refusal()?;
    let cells = cells_on(&board.lines);
    empty_points_of(&cells, out)
}

// The cells from `distance` before a point to `distance` after it, in each direction, short diagonals too, the point each time.
pub fn neighbors(
    board: Board,
    code: u8,
    distance: u8,
    only_empty: bool,
    out: &mut [u8],
) -> Result<u16, Refusal>
    ensures { (result ≡ counted 1 (neighbours_refusal board code distance) out.old
        (neighbours (cells board) code distance only_empty))
        × (out.new ≡ list_out (neighbours_refusal board code distance) out.old
        (neighbours (cells board) code distance only_empty)) }
{
    board.refusal()?;
    let cells = cells_on(&board.lines);
    neighbors_of(&cells, code, distance, only_empty, out)
}

// The colour's rows of a kind, by key, then start, four bytes each.
pub fn rows(board: Board, colour: u8, kind: u8, out: &mut [u8]) -> Result<u16, Refusal>
    ensures { (result ≡ counted 4 (rows_refusal board colour kind) out.old
        (rows_of (player_of colour) (kind_of kind) (cells board)))
        × (out.new ≡ list_out (rows_refusal board colour kind) out.old
        (rows_of (player_of colour) (kind_of kind) (cells board))) }
{
    rows_refusal(board, colour, kind)?;
    let found = all_rows(
        &board.lines,
        Player::or_white(colour),
        RowKind::or_overlined(kind),
    );
    hand_out(found.as_slice(), (found.len() / 4) as u16, out)
}

// Those through a point, line by line.
pub fn rows_on(board: Board, code: u8, colour: u8, kind: u8, out: &mut [u8]) -> Result<u16, Refusal>
    ensures { (result ≡ counted 4 (rows_on_refusal board code colour kind) out.old
        (rows_on_point (player_of colour) (kind_of kind) (cells board) code))
        × (out.new ≡ list_out (rows_on_refusal board code colour kind) out.old
        (rows_on_point (player_of colour) (kind_of kind) (cells board) code)) }
{
    board.rows_on_refusal(code, colour, kind)?;
    let code = Code::new(code).unwrap();
    let found = rows_through(
        &board.lines,
        code,
        Player::or_white(colour),
        RowKind::or_overlined(kind),
    );
    hand_out(found.as_slice(), (found.len() / 4) as u16, out)
}

// The points where the colour makes a five of a four through a point, line by line, each cell once a line, ascending.
pub fn four_eyes_on(board: Board, code: u8, colour: u8, out: &mut [u8]) -> Result<u16, Refusal>
    ensures { (result ≡ counted 1 (refusal_for board code colour) out.old
        (four_eyes (player_of colour) (cells board) code))
        × (out.new ≡ list_out (refusal_for board code colour) out.old
        (four_eyes (player_of colour) (cells board) code)) }
{
    board.refusal_for(code, colour)?;
    let code = Code::new(code).unwrap();
    let found = four_eyes(&board.lines, code, Player::or_white(colour));
    hand_out(found.as_slice(), found.len() as u16, out)
}

// The points of a row's stones or eyes: cells j + k of the line of a key, for k the set bits of the row's mask.
pub fn row_points(key: u8, j: u8, mask: u8, out: &mut [u8]) -> Result<u16, Refusal>
    ensures { (result ≡ counted 1 (mask_refusal key j mask) out.old (mask_points key j mask))
        × (out.new ≡ list_out (mask_refusal key j mask) out.old (mask_points key j mask)) }
{
    mask_refusal(key, j, mask)?;
    let key = Key::new(key).unwrap();
    let found = mask_points(key, j, mask);
    hand_out(found.as_slice(), found.len() as u16, out)
}
