// Rows collected line by line, four bytes each: key, start, stones mask, eyes mask.
ghost use Rattle.std.specs.Prelude.{◌≡◌, ◌++◌, ◌+◌, ◌≤◌, length};
ghost use Rattle.rules.specs.Bit.{bit};
ghost use Rattle.rules.specs.Line.{stones_mask};
ghost use Rattle.rules.specs.Grid.{rows_of, rows_on_point, key_rows, rows_in};
ghost use Rattle.grid.specs.Lines.{cells_of, Sound};
ghost use Rattle.lists.specs.Lists.{row_list};

use grid::{mask_on, starts_at};
use lent::Kept;
use masks;
use masks::bit_at;
use point::{Table, address_by, key_size};
use rules::{Code, Key, Player, RowKind, Way};

// The player's rows of the kind, by key, then start: at most 15 starts on each of 72 lines.
pub(crate) fn all_rows(lines: &[u16; 144], player: Player, kind: RowKind) -> Kept<4320>
    requires { Sound lines.now }
    ensures { result ≡ rows_of player kind (cells_of lines.now) }
{
    let mut list = Kept::new();
    for key in 0..72 {
        let key = Key::new(key).unwrap();
        keep_key(lines, key, player, kind, &mut list);
    }
    list
}

// Those of the line of a key.
fn keep_key(lines: &[u16; 144], key: Key, player: Player, kind: RowKind, list: &mut Kept<4320>)
    requires { Sound lines.now × (length list.old + 60 ≤ 4320) }
    ensures { list.new ≡ list.old ++ key_rows player kind (cells_of lines.now) key }
{
    let key = key.get();
    let my = mask_on(lines, key, player);
    let op = mask_on(lines, key, player.opponent());
    let starts = masks::row_starts(my, op, key_size(key), player.is_black(), kind);
    keep_rows(key, my, op, kind, starts, list);
}

// The player's rows of the kind through a point, line by line: at most 15 starts on each of four lines.
pub(crate) fn rows_through(
    lines: &[u16; 144],
    code: Code,
    player: Player,
    kind: RowKind,
) -> Kept<240>
    requires { Sound lines.now }
    ensures { result ≡ rows_on_point player kind (cells_of lines.now) code }
{
    let table = Table::new();
    let mut list = Kept::new();
    for d in 0..4 {
        let way = Way::new(d).unwrap();
        keep_rows_along(lines, &table, way, code, player, kind, &mut list);
    }
    list
}

// Those on the line in one direction.
fn keep_rows_along(
    lines: &[u16; 144],
    table: &Table,
    d: Way,
    code: Code,
    player: Player,
    kind: RowKind,
    list: &mut Kept<240>,
)
    requires { Sound lines.now × (length list.old + 60 ≤ 240) }
    ensures { list.new ≡ list.old ++ rows_in player kind (cells_of lines.now) code d }
{
    let a = address_by(table.numbers(), d.get(), code.get());
    if a.stored {
        let my = mask_on(lines, a.key, player);
        let op = mask_on(lines, a.key, player.opponent());
        let starts = starts_at(lines, a, player, kind);
        keep_rows(a.key, my, op, kind, starts, list);
    }
}

// The rows of one line that start where `starts` says.
fn keep_rows<const N: usize>(
    key: u8,
    my: u16,
    op: u16,
    kind: RowKind,
    starts: u16,
    list: &mut Kept<N>,
)
    requires { length list.old + 60 ≤ N }
    ensures { list.new ≡ list.old ++ row_list key (bit my) (bit op) kind (bit starts) }
{
    let size = key_size(key);
    let empty = masks::empty_cells(my, op, size);
    for j in 0..size {
        if bit_at(starts, j) {
            let stones = five_from(my, j);
            let eyes = five_from(empty, j) & kind.eye_cells();
            list.keep(&[key, j, stones, eyes]);
        }
    }
}

// The five bits of a mask from bit j on.
fn five_from(m: u16, j: u8) -> u8
    ensures { result ≡ stones_mask (bit m) j }
{
    if j < 16 { ((m >> j) % 32) as u8 } else { 0 }
}
