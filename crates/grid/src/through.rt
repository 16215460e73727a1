// The masks of the lines through a point, which travel together, one for each direction.
ghost use Rattle.std.specs.Prelude.{◌≡◌};
ghost use Rattle.rules.specs.Numbers.{opponent_of};
ghost use Rattle.grid.specs.Lines.{mask_by, masks_by};

use super::store::entry_no;
use point::address_by;
use rules::Player;

// The masks of the four lines through a point.
#[derive(Clone, Copy, Debug, PartialEq, Eq)]
pub struct Stones {
    pub own: [u16; 4],
    pub other: [u16; 4],
}

// .. of one line.
#[derive(Clone, Copy)]
struct LineStones {
    own: u16,
    other: u16,
}

// The player's stones on the four lines through a point, by the lent table of addresses: vertical, horizontal, ascending, descending; 0 where
// no line is stored, as for every code over 224.
#[tactic(auto, unfolding(crate::specs::Lines::masks_by, rules::specs::Tools::tab))]
pub fn masks_by(lines: &[u16; 144], table: &[u16; 900], code: u8, player: Player) -> [u16; 4]
    ensures { result ≡ masks_by lines.now table.now code player }
{
    [
        mask_along(lines, table, 0, code, player),
        mask_along(lines, table, 1, code, player),
        mask_along(lines, table, 2, code, player),
        mask_along(lines, table, 3, code, player),
    ]
}

// Both colours' stones on those lines, the player's and the opponent's, with one look at each address.
#[tactic(auto, unfolding(crate::specs::Lines::masks_by, rules::specs::Tools::tab))]
pub fn stones_by(lines: &[u16; 144], table: &[u16; 900], code: u8, player: Player) -> Stones
    ensures { (result.own ≡ masks_by lines.now table.now code player)
        × (result.other ≡ masks_by lines.now table.now code (opponent_of player)) }
{
    let v = stones_along(lines, table, 0, code, player);
    let h = stones_along(lines, table, 1, code, player);
    let a = stones_along(lines, table, 2, code, player);
    let d = stones_along(lines, table, 3, code, player);
    Stones {
        own: [v.own, h.own, a.own, d.own],
        other: [v.other, h.other, a.other, d.other],
    }
}

// .. on the line in one direction.
fn stones_along(
    lines: &[u16; 144],
    table: &[u16; 900],
    d: u8,
    code: u8,
    player: Player,
) -> LineStones
    ensures { (result.own ≡ mask_by lines.now table.now code player d)
        × (result.other ≡ mask_by lines.now table.now code (opponent_of player) d) }
{
    let a = address_by(table, d, code);
    if a.stored {
        let k = entry_no(player, a.key);
        let o = entry_no(player.opponent(), a.key);
        return LineStones {
            own: lines[k],
            other: lines[o],
        };
    }
    LineStones { own: 0, other: 0 }
}

// The player's stones on the line in one direction.
fn mask_along(lines: &[u16; 144], table: &[u16; 900], d: u8, code: u8, player: Player) -> u16
    ensures { result ≡ mask_by lines.now table.now code player d }
{
    let a = address_by(table, d, code);
    if a.stored {
        let k = entry_no(player, a.key);
        return lines[k];
    }
    0
}
