// A whole game refereed, handed in as a list of codes.
ghost use Rattle.std.specs.Prelude.{◌≡◌};
ghost use Rattle.lent.specs.Lists.{list_refusal, list_out};
ghost use Rattle.cells.specs.Cells.{moves_refusal};
ghost use Rattle.game.specs.Game.{report_of};
ghost use Rattle.renju.specs.Answers.{word};
ghost use Rattle.renju.specs.Games.{game_bytes};

// The number of the first faulty move, from 1, or 0; to the front of `out` that number, the reason, the winner and the cells.
#[unsafe(no_mangle)]
pub extern "C" fn renju_game(moves: &[u8], out: &mut [u8]) -> u32
    ensures { (result ≡ word (list_refusal (moves_refusal moves.now) out.old (game_bytes moves.now))
        (report_of moves.now).number)
        × (out.new ≡ list_out (moves_refusal moves.now) out.old (game_bytes moves.now)) }
{
    renju::renju_game(moves, out)
}
