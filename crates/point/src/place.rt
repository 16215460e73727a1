// The address of a point: where the line through it stands among the stored ones.
#![tactic(auto, unfolding(crate::specs::Places::place_by, crate::specs::Places::unpacked))]

ghost use Rattle.std.specs.Prelude.{◌≡◌};
ghost use Rattle.point.specs.Places.{place_of, place_by, unpacked};

use super::lines::by_direction;
use super::table::addresses;

// The key of the line and the point's cell on it, where that line is stored; else both are 0.
#[derive(Clone, Copy, Debug, PartialEq, Eq)]
pub struct Place {
    pub stored: bool,
    pub key: u8,
    pub cell: u8,
}

const NOWHERE: Place = Place {
    stored: false,
    key: 0,
    cell: 0,
};

// The line through a point, in a direction, read off the table: the one address that every put and remove, and every reading of the lines
// through a point, asks for. (A cell's value alone is read off its column.) A code over 224 has none; a direction over 3 is taken for
// Descending.
pub fn address(d: u8, code: u8) -> Place
    ensures { result ≡ place_of d code }
{
    let table = addresses();
    address_by(&table, d, code)
}

// The same off a table that is lent. Of another table, what its entry says, where that names one of the 72 keys.
pub fn address_by(table: &[u16; 900], d: u8, code: u8) -> Place
    ensures { result ≡ place_by table.now d code }
{
    if code < 225 {
        let way = by_direction(d, 0, 1, 2, 3) as usize;
        return place_of(table[4 * code as usize + way]);
    }
    NOWHERE
}

// What an entry says. One that is 16 times 72 or more names no key.
fn place_of(entry: u16) -> Place
    ensures { result ≡ unpacked entry }
{
    if entry < 1152 {
        return Place {
            stored: true,
            key: (entry / 16) as u8,
            cell: (entry % 16) as u8,
        };
    }
    NOWHERE
}
