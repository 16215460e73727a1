// The board: 225 cells in code order, 0 empty, 1 black, 2 white.
ghost use Rattle.std.specs.Prelude.{◌≡◌};
ghost use Rattle.cells.specs.Cells.{Cells};

// The board of cell bytes: filled empty, then overwritten by them.
pub(crate) fn board_of(cells: &[u8]) -> [u8; 225]
    requires { Cells cells.now }
    ensures { result ≡ cells.now }
{
    let mut board = [0; 225];
    board.copy_from_slice(cells);
    board
}
