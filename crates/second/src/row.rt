// Section 4: rows on the line through a point, and their eyes. The quoted sentences are document 01's.
ghost use Rattle.std.specs.Prelude.{◌≡◌, ◌<◌, ◌-◌, Some, None, cond, leb};
ghost use Rattle.rules.specs.Numbers.{is_black};
ghost use Rattle.rules.specs.Line.{scores, pair_at, no_stone, open_at, over_at, span, among, empty_at, eye_span};
ghost use Rattle.rules.specs.Point.{line_no};
ghost use Rattle.rules.specs.Grid.{row_on, rows_through, eye_on};
ghost use Rattle.second.specs.Walk.{size_along, own_along, other_along};

use super::line::{cell_no, size_along};
use super::window::{Start, has_stone, holds, scores};
use rules::{Code, Player, RowKind, Way};

// j−1, where there is such a cell.
fn before(j: Start) -> Option<Start>
    ensures { result ≡ cond (leb 1 j) (Some (j - 1)) None }
{
    if j.get() > 0 {
        Start::new(j.get() - 1)
    } else {
        None
    }
}

// Whether windows j−1 and j both score n.
#[tactic(auto, unfolding(rules::specs::Line::pair_at))]
fn both_score(board: &[u8; 225], d: Way, code: Code, player: Player, n: u8, j: Start) -> bool
    ensures { result ≡ pair_at (scores (is_black player) (size_along d code)
        (own_along player board.now d code)
        (other_along player board.now d code) n) j }
{
    match before(j) {
        Some(i) => scores(board, d, code, player, n, i) && scores(board, d, code, player, n, j),
        None => false,
    }
}

// "windows j−1 and j are both free and both hold 4, or both 5, counted without the dead rule"
#[tactic(auto, unfolding(rules::specs::Line::pair_at, rules::specs::Line::over_at))]
fn both_hold(board: &[u8; 225], d: Way, code: Code, player: Player, n: u8, j: Start) -> bool
    ensures { result ≡ over_at (size_along d code) (own_along player board.now d code)
        (other_along player board.now d code) n j }
{
    match before(j) {
        Some(i) => holds(board, d, code, player, n, i) && holds(board, d, code, player, n, j),
        None => false,
    }
}

// Whether cell i holds no stone, neither the player's nor the opponent's.
#[tactic(auto, unfolding(rules::specs::Line::no_stone))]
fn has_none(board: &[u8; 225], d: Way, code: Code, player: Player, i: u8) -> bool
    ensures { result ≡ no_stone (own_along player board.now d code)
        (other_along player board.now d code) i }
{
    !has_stone(board, d, code, player, i) && !has_stone(board, d, code, player.opponent(), i)
}

// "windows j−1 and j both score 2, 3, 4 and cell j+4 is empty"
#[tactic(auto, unfolding(rules::specs::Line::open_at))]
fn is_open(board: &[u8; 225], d: Way, code: Code, player: Player, n: u8, j: Start) -> bool
    ensures { result ≡ open_at (is_black player) (size_along d code) (own_along player board.now d code)
        (other_along player board.now d code) n j }
{
    both_score(board, d, code, player, n, j) && has_none(board, d, code, player, j.get() + 4)
}

// Whether a row of the kind starts at cell j of the line. "Sword, Four, Five at j: score 3, 4, 5. Two, Three, Straight at j: windows j−1
// and j both score 2, 3, 4 and cell j+4 is empty. Overlining, Overlined at j: windows j−1 and j are both free and both hold 4, or both 5,
// counted without the dead rule."
#[tactic(auto, unfolding(rules::specs::Line::row_at, rules::specs::Grid::row_on))]
pub(crate) fn is_row(
    board: &[u8; 225],
    d: Way,
    code: Code,
    player: Player,
    kind: RowKind,
    j: Start,
) -> bool
    ensures { result ≡ row_on player kind board.now d (line_no d code) j }
{
    match kind {
        RowKind::Two => is_open(board, d, code, player, 2, j),
        RowKind::Three => is_open(board, d, code, player, 3, j),
        RowKind::Straight => is_open(board, d, code, player, 4, j),
        RowKind::Sword => scores(board, d, code, player, 3, j),
        RowKind::Four => scores(board, d, code, player, 4, j),
        RowKind::Five => scores(board, d, code, player, 5, j),
        RowKind::Overlining => both_hold(board, d, code, player, 4, j),
        RowKind::Overlined => both_hold(board, d, code, player, 5, j),
    }
}

// Whether i is one of the n cells from j on.
#[tactic(auto, unfolding(rules::specs::Line::among))]
fn is_among(n: u8, j: Start, i: u8) -> bool
    requires { n < 16 }
    ensures { result ≡ among n j i }
{
    (j.get() <= i) && (i < j.get() + n)
}

// "i is in its window, or, for the kinds on two windows, in the four shared cells j to j+3": how many cells from j on.
fn cells_through(kind: RowKind) -> u8
    ensures { (result ≡ span kind) × (result < 16) }
{
    if kind.spans_two() { 4 } else { 5 }
}

// Whether a row of the kind starts at cell j and goes through the point.
#[tactic(auto, unfolding(rules::specs::Grid::rows_through))]
pub(crate) fn is_through(
    board: &[u8; 225],
    d: Way,
    code: Code,
    player: Player,
    kind: RowKind,
    j: Start,
) -> bool
    ensures { result ≡ rows_through player kind board.now code d j }
{
    is_among(cells_through(kind), j, cell_no(d, code)) && is_row(board, d, code, player, kind, j)
}

// "Eyes are the row's empty cells: of five cells, or of the shared four for Two, Three and Straight." How many cells from j on.
fn cells_seen(kind: RowKind) -> u8
    ensures { (result ≡ eye_span kind) × (result < 16) }
{
    match kind {
        RowKind::Two | RowKind::Three | RowKind::Straight => 4,
        _ => 5,
    }
}

// Whether cell i is on the line and empty.
#[tactic(auto, unfolding(rules::specs::Line::empty_at))]
fn is_empty(board: &[u8; 225], d: Way, code: Code, player: Player, i: u8) -> bool
    ensures { result ≡ empty_at (size_along d code) (own_along player board.now d code)
        (other_along player board.now d code) i }
{
    (i < size_along(d, code)) && has_none(board, d, code, player, i)
}

// Whether cell i is an eye of the row of the kind that starts at cell j.
#[tactic(auto, unfolding(rules::specs::Line::is_eye, rules::specs::Grid::eye_on))]
pub(crate) fn is_eye(
    board: &[u8; 225],
    d: Way,
    code: Code,
    player: Player,
    kind: RowKind,
    j: Start,
    i: u8,
) -> bool
    ensures { result ≡ eye_on player kind board.now d (line_no d code) j i }
{
    is_among(cells_seen(kind), j, i) && is_empty(board, d, code, player, i)
}
