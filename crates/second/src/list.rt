// Section 4's and 5's lists, collected line by line and point by point.
ghost use Rattle.std.specs.Prelude.{◌≡◌, ◌++◌, ◌+◌, ◌<◌, ◌≤◌, [], length};
ghost use Rattle.rules.specs.Point.{line_no};
ghost use Rattle.rules.specs.Grid.{rows_of, rows_on_point, line_rows, four_eye, eyes_in, four_eyes};
ghost use Rattle.rules.specs.Forbidden.{forbidden_list};
ghost use Rattle.cells.specs.Cells.{Cells};
ghost use Rattle.second.specs.Lists.{rows_asked};

use super::key::{first_point, key_direction};
use super::line::{point_along, size_along};
use super::row::{is_eye, is_row, is_through};
use super::row_bytes::row_bytes;
use super::verdict::strict;
use super::window::Start;
use lent::Kept;
use rules::{Code, Key, Player, RowKind, Way};

// The player's rows of the kind, at most 72 lines of 15 starts, four bytes a row, put into the caller's empty list: handed up by value it
// would stand on the stack twice. "Rows come by line key, then start".
pub(crate) fn all_rows(board: &[u8; 225], player: Player, kind: RowKind, list: &mut Kept<4320>)
    requires { list.old ≡ [] }
    ensures { list.new ≡ rows_of player kind board.now }
{
    for key in 0..72u8 {
        let key = Key::new(key).unwrap();
        keep_rows(
            board,
            key_direction(key),
            first_point(key),
            player,
            kind,
            false,
            list,
        );
    }
}

// Those through a point, line by line, at most 4 lines of 15 starts.
pub(crate) fn point_rows(board: &[u8; 225], code: Code, player: Player, kind: RowKind) -> Kept<240>
    ensures { result ≡ rows_on_point player kind board.now code }
{
    let mut list = Kept::new();
    for d in 0..4u8 {
        let d = Way::new(d).unwrap();
        keep_rows(board, d, code, player, kind, true, &mut list);
    }
    list
}

// The rows of one line, all of them or only those through the point.
// stays: a closure in place of `only_through` needs clauses of its own, and reads no plainer
fn keep_rows<const N: usize>(
    board: &[u8; 225],
    d: Way,
    code: Code,
    player: Player,
    kind: RowKind,
    only_through: bool,
    list: &mut Kept<N>,
)
    requires { length list.old + 60 ≤ N }
    ensures { list.new ≡ list.old ++ line_rows player kind board.now d (line_no d code)
        (rows_asked player kind board.now code d only_through) }
{
    for j in 0..size_along(d, code) {
        let j = Start::new(j).unwrap();
        if is_asked(board, d, code, player, kind, only_through, j) {
            list.keep(&row_bytes(board, d, code, player, kind, j));
        }
    }
}

// Whether a row starts at cell j and is asked for.
fn is_asked(
    board: &[u8; 225],
    d: Way,
    code: Code,
    player: Player,
    kind: RowKind,
    only_through: bool,
    j: Start,
) -> bool
    ensures { result ≡ rows_asked player kind board.now code d only_through j }
{
    if only_through {
        is_through(board, d, code, player, kind, j)
    } else {
        is_row(board, d, code, player, kind, j)
    }
}

// The eyes of the player's Fours through a point, at most 4 lines of 15 cells, as codes: "line by line (vertical, horizontal, ascending,
// descending), each cell once a line, ascending."
pub(crate) fn four_eyes(board: &[u8; 225], code: Code, player: Player) -> Kept<60>
    ensures { result ≡ four_eyes player board.now code }
{
    let mut list = Kept::new();
    for d in 0..4u8 {
        let d = Way::new(d).unwrap();
        keep_eyes(board, d, code, player, &mut list);
    }
    list
}

// Those on one line.
fn keep_eyes(board: &[u8; 225], d: Way, code: Code, player: Player, list: &mut Kept<60>)
    requires { length list.old + 15 ≤ 60 }
    ensures { list.new ≡ list.old ++ eyes_in player board.now code d }
{
    for i in 0..size_along(d, code) {
        if is_four_eye(board, d, code, player, i) {
            list.keep(&[point_along(d, code, i).get()]);
        }
    }
}

// Whether cell i of the line is an eye of some Four of the player's through the point.
fn is_four_eye(board: &[u8; 225], d: Way, code: Code, player: Player, i: u8) -> bool
    ensures { result ≡ four_eye player board.now code d i }
{
    for j in 0..16u8 {
        let j = Start::new(j).unwrap();
        if is_through(board, d, code, player, RowKind::Four, j)
            && is_eye(board, d, code, player, RowKind::Four, j, i)
        {
            return true;
        }
    }
    false
}

// "The forbidden list holds each empty point whose strict verdict is a kind, by ascending code: kind byte .., then code." At most 225 points.
pub(crate) fn forbidden_pairs(board: &mut [u8; 225]) -> Kept<450>
    requires { Cells board.old }
    ensures { result ≡ forbidden_list board.old }
{
    let mut list = Kept::new();
    for p in 0..225u8 {
        let verdict = strict(board, Code::new(p).unwrap());
        if !verdict.is_none() {
            list.keep(&[verdict.number(), p]);
        }
    }
    list
}
