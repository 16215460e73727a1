// The masks of starts of the rows through a point, held to the list of those rows.
ghost use Rattle.std.specs.Prelude.{◌≤◌};

use board::Board;
use lent::tail;
use masks::bit_at;
use point::line_from_key;
use records::{byte, count_bits};
use rules::Refusal;

// `o`: each listed row starts where the mask of its direction says, and there are as many starts as rows.
pub(crate) fn has_starts(cells: &[u8], record: &[u8]) -> bool {
    match starts_of(cells, record) {
        Ok(starts) => record.len() == 11 + 8 * ones(&starts) && has_rows(&starts, tail(record, 11)),
        Err(_) => false,
    }
}

// The masks that the board gives for what the record asks.
fn starts_of(cells: &[u8], record: &[u8]) -> Result<[u16; 4], Refusal> {
    let board = Board::from_cells(cells)?;
    board.row_starts_on(byte(record, 2), byte(record, 5), byte(record, 8))
}

// How many bits the four masks have.
fn ones(starts: &[u16; 4]) -> usize
    ensures { result ≤ 64 }
{
    let first = count_bits(starts[0]) as usize + count_bits(starts[1]) as usize;
    first + count_bits(starts[2]) as usize + count_bits(starts[3]) as usize
}

// Whether rows, of eight digits each, all start where the masks say.
fn has_rows(starts: &[u16; 4], rows: &[u8]) -> bool {
    for row in rows.chunks(8) {
        if !bit_at(toward(starts, byte(row, 0)), byte(row, 2)) {
            return false;
        }
    }
    true
}

// The mask of the direction of a key's line; none is set where there is no such line.
fn toward(starts: &[u16; 4], key: u8) -> u16 {
    match line_from_key(key) {
        Ok(index) if index.d < 4 => starts[index.d as usize],
        _ => 0,
    }
}
