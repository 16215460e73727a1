// The front, on cell bytes: each question tests what it is given, in section 2's order, puts the cells on a board and asks. Nothing that it
// is handed is changed, but for the answer's own leading bytes.
ghost use Rattle.std.specs.Prelude.{◌≡◌};
ghost use Rattle.rules.specs.Numbers.{player_of, kind_of};
ghost use Rattle.rules.specs.Answers.{answer};
ghost use Rattle.rules.specs.Grid.{rows_of, rows_on_point, four_eyes};
ghost use Rattle.rules.specs.Forbidden.{strict_of, plain_of, forbidden_list};
ghost use Rattle.lent.specs.Lists.{counted, list_out};
ghost use Rattle.cells.specs.Cells.{cells_refusal, cells_refusal_at, cells_refusal_for};
ghost use Rattle.second.specs.Lists.{cells_rows_refusal, cells_rows_on_refusal, cells_forbidden_refusal};

use super::board::board_of;
use super::list::{all_rows, forbidden_pairs, four_eyes, point_rows};
use super::refusal::{colour_refusal_at, forbidden_refusal, rows_refusal, rows_refusal_at};
use super::verdict::{plain, strict};
use cells::{cells_refusal, cells_refusal_at};
use lent::{Kept, hand_out};
use rules::{Code, Player, Refusal, RowKind, Verdict};

// The colour's rows of a kind, by key, then start, four bytes each; and how many there are.
pub fn rows(cells: &[u8], colour: u8, kind: u8, out: &mut [u8]) -> Result<u16, Refusal>
    ensures { (result ≡ counted 4 (cells_rows_refusal cells.now colour kind) out.old
        (rows_of (player_of colour) (kind_of kind) cells.now))
        × (out.new ≡ list_out (cells_rows_refusal cells.now colour kind) out.old
        (rows_of (player_of colour) (kind_of kind) cells.now)) }
{
    rows_refusal(cells, colour, kind)?;
    let board = board_of(cells);
    let mut found = Kept::<4320>::new();
    all_rows(
        &board,
        Player::or_white(colour),
        RowKind::or_overlined(kind),
        &mut found,
    );
    hand_out(found.as_slice(), (found.len() / 4) as u16, out)
}

// Those through a point, line by line.
pub fn rows_on(cells: &[u8], code: u8, colour: u8, kind: u8, out: &mut [u8]) -> Result<u16, Refusal>
    ensures { (result ≡ counted 4 (cells_rows_on_refusal cells.now code colour kind) out.old
        (rows_on_point (player_of colour) (kind_of kind) cells.now code))
        × (out.new ≡ list_out (cells_rows_on_refusal cells.now code colour kind) out.old
        (rows_on_point (player_of colour) (kind_of kind) cells.now code)) }
{
    rows_refusal_at(cells, code, colour, kind)?;
    let board = board_of(cells);
    let found = point_rows(
        &board,
        Code::new(code).unwrap(),
        Player::or_white(colour),
        RowKind::or_overlined(kind),
    );
    hand_out(found.as_slice(), (found.len() / 4) as u16, out)
}

// The points where the colour makes a five of a Four through a point, as codes, line by line, each cell once a line, ascending.
pub fn four_eyes_on(cells: &[u8], code: u8, colour: u8, out: &mut [u8]) -> Result<u16, Refusal>
    ensures { (result ≡ counted 1 (cells_refusal_for cells.now code colour) out.old
        (four_eyes (player_of colour) cells.now code))
        × (out.new ≡ list_out (cells_refusal_for cells.now code colour) out.old
        (four_eyes (player_of colour) cells.now code)) }
{
    colour_refusal_at(cells, code, colour)?;
    let board = board_of(cells);
    let found = four_eyes(&board, Code::new(code).unwrap(), Player::or_white(colour));
    hand_out(found.as_slice(), found.len() as u16, out)
}

// The plain verdict at an empty point.
#[tactic(auto, unfolding(rules::specs::Answers::answer))]
pub fn forbidden(cells: &[u8], code: u8) -> Result<Verdict, Refusal>
    ensures { result ≡ answer (cells_forbidden_refusal cells.now code) (plain_of cells.now code) }
{
    forbidden_refusal(cells, code)?;
    let mut board = board_of(cells);
    Ok(plain(&mut board, Code::new(code).unwrap()))
}

// The strict verdict: none at an occupied point, and where the stone completes a five.
#[tactic(auto, unfolding(rules::specs::Answers::answer))]
pub fn forbidden_strict(cells: &[u8], code: u8) -> Result<Verdict, Refusal>
    ensures { result ≡ answer (cells_refusal_at cells.now code) (strict_of cells.now code) }
{
    cells_refusal_at(cells, code)?;
    let mut board = board_of(cells);
    Ok(strict(&mut board, Code::new(code).unwrap()))
}

// The forbidden points, two bytes each, the kind and the code, by ascending code; and how many there are.
pub fn forbidden_points(cells: &[u8], out: &mut [u8]) -> Result<u16, Refusal>
    ensures { (result ≡ counted 2 (cells_refusal cells.now) out.old (forbidden_list cells.now))
        × (out.new ≡ list_out (cells_refusal cells.now) out.old (forbidden_list cells.now)) }
{
    cells_refusal(cells)?;
    let mut board = board_of(cells);
    let found = forbidden_pairs(&mut board);
    hand_out(found.as_slice(), (found.len() / 2) as u16, out)
}
