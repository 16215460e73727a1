// The rows through a point, as four masks of their starts that travel together, one for each direction.
ghost use Rattle.std.specs.Prelude.{◌≡◌};
ghost use Rattle.grid.specs.Lines.{starts_at, starts_on, starts_by};

use super::store::mask_on;
use masks;
use point::{Place, address_by, addresses, key_size};
use rules::{Player, RowKind};

// Where the player's rows of the kind through a point start: vertical, horizontal, ascending, descending; 0 where no line is stored,
// as for every code over 224.
pub fn row_starts_on(lines: &[u16; 144], code: u8, player: Player, kind: RowKind) -> [u16; 4]
    ensures { result ≡ starts_on lines.now code player kind }
{
    let table = addresses();
    row_starts_by(lines, &table, code, player, kind)
}

// The same by a lent table of addresses.
#[tactic(auto, unfolding(crate::specs::Lines::starts_by, rules::specs::Tools::tab))]
pub fn row_starts_by(
    lines: &[u16; 144],
    table: &[u16; 900],
    code: u8,
    player: Player,
    kind: RowKind,
) -> [u16; 4]
    ensures { result ≡ starts_by lines.now table.now code player kind }
{
    [
        starts_at(lines, address_by(table, 0, code), player, kind),
        starts_at(lines, address_by(table, 1, code), player, kind),
        starts_at(lines, address_by(table, 2, code), player, kind),
        starts_at(lines, address_by(table, 3, code), player, kind),
    ]
}

// .. on the line of an address; 0 where that is nowhere.
#[tactic(auto, unfolding(crate::specs::Lines::starts_at))]
pub fn starts_at(lines: &[u16; 144], a: Place, player: Player, kind: RowKind) -> u16
    ensures { result ≡ starts_at lines.now a player kind }
{
    if a.stored {
        return masks::row_starts_on(
            mask_on(lines, a.key, player),
            mask_on(lines, a.key, player.opponent()),
            key_size(a.key),
            a.cell,
            player.is_black(),
            kind,
        );
    }
    0
}
