// Points collected as codes: the eyes of fours through a point, and the points of a mask of cells.
ghost use Rattle.std.specs.Prelude.{◌≡◌, ◌++◌, ◌+◌, ◌≤◌, ◌<◌, T, length};
ghost use Rattle.rules.specs.Tools.{all_below};
ghost use Rattle.rules.specs.Bit.{bit, mask_of};
ghost use Rattle.rules.specs.Point.{line_count, line_size, point_at, key_size};
ghost use Rattle.rules.specs.Grid.{four_eye, four_eyes, eyes_in};
ghost use Rattle.grid.specs.Lines.{cells_of, Sound};
ghost use Rattle.lists.specs.Lists.{cell_list, mask_points, mask_cell};

use grid::{mask_on, starts_at};
use lent::Kept;
use masks;
use masks::bit_at;
use point::{Table, address_by, key_direction, key_no, key_size, line_no, line_size, point_at};
use rules::{Code, Key, Player, RowKind, Way};

// The eyes of the player's fours through a point, line by line, each cell once a line, ascending: at most 15 on each of four lines.
pub(crate) fn four_eyes(lines: &[u16; 144], code: Code, player: Player) -> Kept<60>
    requires { Sound lines.now }
    ensures { result ≡ four_eyes player (cells_of lines.now) code }
{
    let table = Table::new();
    let mut list = Kept::new();
    for d in 0..4 {
        let way = Way::new(d).unwrap();
        keep_eyes(lines, &table, way, code, player, &mut list);
    }
    list
}

// Those on the line in one direction.
fn keep_eyes(
    lines: &[u16; 144],
    table: &Table,
    d: Way,
    code: Code,
    player: Player,
    list: &mut Kept<60>,
)
    requires { Sound lines.now × (length list.old + 15 ≤ 60) }
    ensures { list.new ≡ list.old ++ eyes_in player (cells_of lines.now) code d }
{
    let eyes = eyes_along(lines, table, d, code, player);
    keep_cells(d, line_no(d.get(), code.get()), eyes, list);
}

// The cells of that line where the player makes a five of a four through the point.
fn eyes_along(lines: &[u16; 144], table: &Table, d: Way, code: Code, player: Player) -> u16
    requires { Sound lines.now }
    ensures { result ≡ mask_of 16 (four_eye player (cells_of lines.now) code d) }
{
    let a = address_by(table.numbers(), d.get(), code.get());
    if a.stored {
        return masks::eyes_of(
            mask_on(lines, a.key, player),
            mask_on(lines, a.key, player.opponent()),
            key_size(a.key),
            starts_at(lines, a, player, RowKind::Four),
            RowKind::Four.eye_cells(),
        );
    }
    0
}

// The codes of some cells of line i, ascending.
fn keep_cells(d: Way, i: u8, cells: u16, list: &mut Kept<60>)
    requires { (i < line_count d) × (length list.old + 15 ≤ 60) }
    ensures { list.new ≡ list.old ++ cell_list d i (bit cells) }
{
    for j in 0..line_size(d.get(), i) {
        if bit_at(cells, j) {
            list.keep(&[code_at(d, i, j)]);
        }
    }
}

// The code of cell j of line i.
fn code_at(d: Way, i: u8, j: u8) -> u8
    requires { (i < line_count d) × (j < line_size d i) }
    ensures { (result ≡ point_at d i j) × (result < 225) }
{
    point_at(d.get(), i, j) as u8
}

// The cells j + k of the line of a key, for k the set bits of a mask, ascending.
pub(crate) fn mask_points(key: Key, j: u8, mask: u8) -> Kept<8>
    requires { T (all_below 8 (mask_cell (key_size key) j mask)) }
    ensures { result ≡ mask_points key j mask }
{
    let d = Way::new(key_direction(key.get())).unwrap();
    let i = key_no(key.get());
    let mut list = Kept::new();
    for k in 0..8u8 {
        if bit_at(mask as u16, k) {
            list.keep(&[code_at(d, i, j + k)]);
        }
    }
    list
}
