// Rows anywhere on the board, line by line: whether a five stands, and whether a player has a point that completes one.
ghost use Rattle.std.specs.Prelude.{◌≡◌, not, ◌&&◌};
ghost use Rattle.rules.specs.Numbers.{opponent_of};
ghost use Rattle.rules.specs.Tools.{any_below};
ghost use Rattle.rules.specs.Bit.{mask_of};
ghost use Rattle.rules.specs.Point.{key_dir, key_no};
ghost use Rattle.rules.specs.Grid.{row_on};
ghost use Rattle.grid.specs.Lines.{cells_of, Sound};
ghost use Rattle.hint.specs.Hint.{goes_on, completes};
ghost use Rattle.hint.specs.Seen.{row_on_key};

use grid::mask_on;
use masks::row_starts;
use point::key_size;
use rules::{Key, Player, RowKind};

// Whether a line may begin: no five stands, and the defender has no point that completes one.
pub(crate) fn is_open(lines: &[u16; 144], side: Player) -> bool
    requires { Sound lines.now }
    ensures { result ≡ (goes_on (cells_of lines.now)
        && not (any_below 225 (completes (opponent_of side) (cells_of lines.now)))) }
{
    !has_row(lines, Player::Black, RowKind::Five)
        && !has_row(lines, Player::White, RowKind::Five)
        && !has_row(lines, side.opponent(), RowKind::Four)
}

// Whether the player has a row of the kind on some line.
fn has_row(lines: &[u16; 144], player: Player, kind: RowKind) -> bool
    requires { Sound lines.now }
    ensures { result ≡ any_below 72 (row_on_key player kind (cells_of lines.now)) }
{
    for key in 0..72u8 {
        if starts_on(lines, Key::new(key).unwrap(), player, kind) != 0 {
            return true;
        }
    }
    false
}

// Where the player's rows of the kind start on the line of a key.
fn starts_on(lines: &[u16; 144], key: Key, player: Player, kind: RowKind) -> u16
    requires { Sound lines.now }
    ensures { result ≡ mask_of 16 (row_on player kind (cells_of lines.now) (key_dir key) (key_no key)) }
{
    let key = key.get();
    row_starts(
        mask_on(lines, key, player),
        mask_on(lines, key, player.opponent()),
        key_size(key),
        player.is_black(),
        kind,
    )
}
